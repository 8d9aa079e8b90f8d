//! Kinds 0b to 0d and 10: what changes the module's own root, counter and secret. Each public function answers a frame of its kind,
//! on registers by value.
#![tactic(auto)]

ghost use Rattle.std.specs.Prelude.{◌≡◌, ◌++◌, ◌+◌, ◌^◌, ◌<◌};
ghost use Rattle.seqs.specs.Bytes.{be64};
ghost use Rattle.paper.specs.Requests as Q;
ghost use Rattle.paper.specs.Refusals as R;
ghost use Rattle.paper.specs.Answers.{raised};
ghost use Rattle.replies.specs.Outcomes.{outcome_for};
ghost use Rattle.checks.specs.Steps.{outcome_at, row};
ghost use Rattle.places.specs.Places.{request_at};

use checks::Desk;
use digests::Memo;
use paper::{Item, Kind, Record, Refusal, Registers, Revision, TOP, Values};
use places::{FIELDS, NUMBER, RECORD, VALUES, digest, item, record_at, values_at};
use replies::Outcome;

// The public functions are kept out of line: together they would be one, with room on the stack for what each of them needs.
// A row's function is lent its desk, as the blocks have to outlive a `?`; that none are counted yet is a clause of each, since a type for
// such a desk would be another after the first check. What it takes are the fields of its kind's row of the table, one by one.

/// The row of 10: hands in the secret, once.
fn unlock_row(desk: &mut Desk, secret: [u8; 32]) -> Result<[u8; 0], Refusal>
    requires { desk.old.blocks ≡ 0 }
    ensures { outcome_at 16 result desk.new ≡ row desk.old.registers 16 (Q.unlock secret) }
{
    desk.check(!desk.registers.opened, Refusal::Opened)?;
    desk.check(!fields::is_zero(secret), Refusal::Secret)?;
    desk.leave(Registers {
        secret,
        opened: true,
        ..desk.registers
    });
    Ok([])
}

/// 10 open: secret.
#[inline(never)]
pub fn unlock(r: Registers, f: &[u8]) -> Outcome
    ensures { result ≡ outcome_for r 16 (request_at 16 f.now) }
{
    let mut desk = Desk::new(r);
    let answer = unlock_row(&mut desk, digest(f, FIELDS, 0));
    desk.outcome(Kind::Open, answer)
}

/// The row of 0b: m is EI(y,next) and y is the root; the root becomes next.
fn adopt_row(desk: &mut Desk, y: [u8; 32], next: [u8; 32], m: [u8; 32]) -> Result<[u8; 32], Refusal>
    requires { desk.old.blocks ≡ 0 }
    ensures { outcome_at 11 result desk.new ≡ row desk.old.registers 11 (Q.adopt y next m) }
{
    desk.is_open()?;
    desk.fits(Memo::Ei(y, next), m, Refusal::First)?;
    desk.is_root(y)?;
    desk.leave(Registers {
        root: next,
        ..desk.registers
    });
    Ok(next)
}

/// 0b adopt: y, next, m.
#[inline(never)]
pub fn adopt(r: Registers, f: &[u8]) -> Outcome
    ensures { result ≡ outcome_for r 11 (request_at 11 f.now) }
{
    let mut desk = Desk::new(r);
    let answer = adopt_row(
        &mut desk,
        digest(f, FIELDS, 0),
        digest(f, FIELDS, 1),
        digest(f, FIELDS, 2),
    );
    desk.outcome(Kind::Adopt, answer)
}

/// The record that a set leaves: it has the raised counter as its revision.
fn next_record(r: Registers, v: Values) -> Record
    requires { r.counter.0 + 1 < 2 ^ 64 }
    ensures { result ≡ R.next_record r v }
{
    Record {
        revision: Revision(r.counter.0 + 1),
        mass: v.mass,
        offset: v.offset,
        rigging: v.rigging,
    }
}

/// What a set or a clear does and answers: the root becomes y' and the counter is raised.
fn raise(desk: &mut Desk, yn: [u8; 32]) -> [u8; 40]
    requires { desk.old.registers.counter.0 + 1 < 2 ^ 64 }
    ensures is { result ≡ yn ++ be64 (desk.old.registers.counter.0 + 1) }
    ensures left { desk.new ≡ record { registers = raised desk.old.registers yn; blocks = desk.old.blocks } }
{
    let counter = Revision(desk.registers.counter.0 + 1);
    desk.leave(Registers {
        root: yn,
        counter,
        ..desk.registers
    });
    let mut s = [0; 40];
    fields::put(&mut s, 0, &yn);
    fields::put(&mut s, 32, &fields::spelled(counter.0));
    s
}

// The rows of set and clear stay two functions, though seven of their lines are the same: each reads as its own row of the table,
// and a function for what they share would take both rows apart.

/// The row of 0c: m is U1 of the leaf whose record changes, and y is the root; the mass v2 is not silly, the record becomes
/// [c+1, v2, v3, v4], the root y', and the counter is raised.
#[tactic(auto, using(crate::proofs::Counting::cost_of_three))]
fn set_row(
    desk: &mut Desk,
    a: Item,
    b: Item,
    old: Record,
    v: Values,
    y: [u8; 32],
    yn: [u8; 32],
    m: [u8; 32],
) -> Result<[u8; 40], Refusal>
    requires { desk.old.blocks ≡ 0 }
    ensures { outcome_at 12 result desk.new ≡ row desk.old.registers 12 (Q.set_to a.0 b.0 old v y yn m) }
{
    let registers = desk.registers;
    desk.is_open()?;
    desk.check(a.0 != 0, Refusal::Zero)?;
    desk.check(b.0 != 0, Refusal::Zero)?;
    desk.check(!records::is_malformed(old), Refusal::Malformed)?;
    desk.check(!records::is_silly(v.mass), Refusal::Mass)?;
    desk.check(registers.counter.0 != TOP, Refusal::Top)?;
    let x = desk.leaf(a, b, old);
    let xn = desk.leaf(a, b, next_record(registers, v));
    desk.fits(Memo::U1(x, y, xn, yn), m, Refusal::First)?;
    desk.is_root(y)?;
    Ok(raise(desk, yn))
}

/// Behind A and A' both carry the old record.
const OLD: u16 = FIELDS + 2 * NUMBER;

const SET_VALUES: u16 = OLD + RECORD;

const SET_DIGESTS: u16 = SET_VALUES + VALUES;

/// 0c set: A, A', old record, v2, v3, v4, y, y', m.
#[inline(never)]
pub fn set_record(r: Registers, f: &[u8]) -> Outcome
    ensures { result ≡ outcome_for r 12 (request_at 12 f.now) }
{
    let mut desk = Desk::new(r);
    let answer = set_row(
        &mut desk,
        item(f, 0),
        item(f, 1),
        record_at(f, OLD),
        values_at(f, SET_VALUES),
        digest(f, SET_DIGESTS, 0),
        digest(f, SET_DIGESTS, 1),
        digest(f, SET_DIGESTS, 2),
    );
    desk.outcome(Kind::Set, answer)
}

/// The row of 0d: m is U1 of the leaf whose record changes, and y is the root; the record, which is not empty, becomes so, the root
/// y', and the counter is raised.
#[tactic(auto, using(crate::proofs::Counting::cost_of_three))]
fn clear_row(
    desk: &mut Desk,
    a: Item,
    b: Item,
    old: Record,
    y: [u8; 32],
    yn: [u8; 32],
    m: [u8; 32],
) -> Result<[u8; 40], Refusal>
    requires { desk.old.blocks ≡ 0 }
    ensures { outcome_at 13 result desk.new ≡ row desk.old.registers 13 (Q.clear a.0 b.0 old y yn m) }
{
    desk.is_open()?;
    desk.check(a.0 != 0, Refusal::Zero)?;
    desk.check(b.0 != 0, Refusal::Zero)?;
    desk.check(!records::is_malformed(old), Refusal::Malformed)?;
    desk.check(!records::is_blank(old), Refusal::Empty)?;
    desk.check(desk.registers.counter.0 != TOP, Refusal::Top)?;
    let x = desk.leaf(a, b, old);
    let xn = desk.leaf(a, b, records::EMPTY);
    desk.fits(Memo::U1(x, y, xn, yn), m, Refusal::First)?;
    desk.is_root(y)?;
    Ok(raise(desk, yn))
}

const CLEAR_DIGESTS: u16 = OLD + RECORD;

/// 0d clear: A, A', old record, y, y', m.
#[inline(never)]
pub fn clear_record(r: Registers, f: &[u8]) -> Outcome
    ensures { result ≡ outcome_for r 13 (request_at 13 f.now) }
{
    let mut desk = Desk::new(r);
    let answer = clear_row(
        &mut desk,
        item(f, 0),
        item(f, 1),
        record_at(f, OLD),
        digest(f, CLEAR_DIGESTS, 0),
        digest(f, CLEAR_DIGESTS, 1),
        digest(f, CLEAR_DIGESTS, 2),
    );
    desk.outcome(Kind::Clear, answer)
}
