//! Kinds 06 to 0a: which roots stand for equally good rings. Each public function answers a frame of its kind, on registers by value.
#![tactic(auto)]

ghost use Rattle.std.specs.Prelude.{◌≡◌, [], ◌∷◌};
ghost use Rattle.sha256.specs.Hash.{sha256};
ghost use Rattle.paper.specs.Strings as S;
ghost use Rattle.paper.specs.Requests as Q;
ghost use Rattle.replies.specs.Outcomes.{outcome_for};
ghost use Rattle.checks.specs.Steps.{blocks_more, outcome_at, row};
ghost use Rattle.places.specs.Places.{request_at};

use checks::Desk;
use digests::Memo;
use paper::{Item, Kind, Refusal, Registers};
use places::{FIELDS, NUMBER, digest, item};
use replies::Outcome;

/// No leaf, no record, no tree.
const NONE: [u8; 32] = [0; 32];

// The public functions are kept out of line: together they would be one, with room on the stack for what each of them needs.
// A row's function is lent its desk, as the blocks have to outlive a `?`; that none are counted yet is a clause of each, since a type for
// such a desk would be another after the first check. What it takes are the fields of its kind's row of the table, one by one.

/// The row of 06: m is U2(x1,x2,y,x2,x1,y'); answers EI(y,y').
fn swap_row(
    desk: &mut Desk,
    x1: [u8; 32],
    x2: [u8; 32],
    y: [u8; 32],
    yn: [u8; 32],
    m: [u8; 32],
) -> Result<[u8; 32], Refusal>
    requires { desk.old.blocks ≡ 0 }
    ensures { outcome_at 6 result desk.new ≡ row desk.old.registers 6 (Q.swap x1 x2 y yn m) }
{
    desk.is_open()?;
    desk.fits(Memo::U2(x1, x2, y, x2, x1, yn), m, Refusal::First)?;
    Ok(desk.issue(Memo::Ei(y, yn)))
}

/// 06: x1, x2, y, y', m.
#[inline(never)]
pub fn swap(r: Registers, f: &[u8]) -> Outcome
    ensures { result ≡ outcome_for r 6 (request_at 6 f.now) }
{
    let mut desk = Desk::new(r);
    let answer = swap_row(
        &mut desk,
        digest(f, FIELDS, 0),
        digest(f, FIELDS, 1),
        digest(f, FIELDS, 2),
        digest(f, FIELDS, 3),
        digest(f, FIELDS, 4),
    );
    desk.outcome(Kind::Swap, answer)
}

/// A leaf, worked.
fn leaf(desk: &mut Desk, a: Item, b: Item, hash: [u8; 32]) -> [u8; 32]
    ensures is { result ≡ S.digest_of sha256 (S.leaf a.0 b.0 hash) }
    ensures counted { desk.new ≡ blocks_more desk.old (S.cost (S.leaf a.0 b.0 hash ∷ [])) }
{
    let leaf = digests::leaf(a, b, hash);
    desk.work(leaf.blocks);
    leaf.bytes
}

/// The row of 07: answers EI(0,leaf(A,A,0)).
fn first_row(desk: &mut Desk, a: Item) -> Result<[u8; 32], Refusal>
    requires { desk.old.blocks ≡ 0 }
    ensures { outcome_at 7 result desk.new ≡ row desk.old.registers 7 (Q.first a.0) }
{
    desk.is_open()?;
    desk.check(a.0 != 0, Refusal::Zero)?;
    let only = leaf(desk, a, a, NONE);
    Ok(desk.issue(Memo::Ei(NONE, only)))
}

/// 07: A.
#[inline(never)]
pub fn first(r: Registers, f: &[u8]) -> Outcome
    ensures { result ≡ outcome_for r 7 (request_at 7 f.now) }
{
    let mut desk = Desk::new(r);
    let answer = first_row(&mut desk, item(f, 0));
    desk.outcome(Kind::First, answer)
}

/// The row of 08: A' lies in the gap of A and B'. With x1 the leaf(A,A',w), x1' leaf(A,B',w), x2 leaf(A',B',0) and x2' 0, m may say
/// U2(x1,x2,y,x1',x2',y') or, tried second, U2(x2,x1,y,x2',x1',y'); answers EI(y,y').
#[tactic(auto, using(paper::proofs::Ceilings::cost_append))]
fn place_row(
    desk: &mut Desk,
    a: Item,
    an: Item,
    bn: Item,
    w: [u8; 32],
    y: [u8; 32],
    yn: [u8; 32],
    m: [u8; 32],
) -> Result<[u8; 32], Refusal>
    requires { desk.old.blocks ≡ 0 }
    ensures { outcome_at 8 result desk.new ≡ row desk.old.registers 8 (Q.place a.0 an.0 bn.0 w y yn m) }
{
    desk.is_open()?;
    desk.check(a.0 != 0, Refusal::Zero)?;
    desk.check(an.0 != 0, Refusal::Zero)?;
    desk.check(bn.0 != 0, Refusal::Zero)?;
    desk.check(records::in_gap(an, a, bn), Refusal::Gap)?;
    let x1 = leaf(desk, a, an, w);
    let x1n = leaf(desk, a, bn, w);
    let x2 = leaf(desk, an, bn, NONE);
    desk.fits_either(
        Memo::U2(x1, x2, y, x1n, NONE, yn),
        Memo::U2(x2, x1, y, NONE, x1n, yn),
        m,
        Refusal::First,
    )?;
    Ok(desk.issue(Memo::Ei(y, yn)))
}

const PLACE_DIGESTS: u16 = FIELDS + 3 * NUMBER;

/// 08: A, A', B', w, y, y', m.
#[inline(never)]
pub fn place(r: Registers, f: &[u8]) -> Outcome
    ensures { result ≡ outcome_for r 8 (request_at 8 f.now) }
{
    let mut desk = Desk::new(r);
    let answer = place_row(
        &mut desk,
        item(f, 0),
        item(f, 1),
        item(f, 2),
        digest(f, PLACE_DIGESTS, 0),
        digest(f, PLACE_DIGESTS, 1),
        digest(f, PLACE_DIGESTS, 2),
        digest(f, PLACE_DIGESTS, 3),
    );
    desk.outcome(Kind::Place, answer)
}

/// The row of 09: m is EI(x,y); answers EI(y,x).
fn turn_row(desk: &mut Desk, x: [u8; 32], y: [u8; 32], m: [u8; 32]) -> Result<[u8; 32], Refusal>
    requires { desk.old.blocks ≡ 0 }
    ensures { outcome_at 9 result desk.new ≡ row desk.old.registers 9 (Q.turn x y m) }
{
    desk.is_open()?;
    desk.fits(Memo::Ei(x, y), m, Refusal::First)?;
    Ok(desk.issue(Memo::Ei(y, x)))
}

/// 09: x, y, m.
#[inline(never)]
pub fn turn(r: Registers, f: &[u8]) -> Outcome
    ensures { result ≡ outcome_for r 9 (request_at 9 f.now) }
{
    let mut desk = Desk::new(r);
    let answer = turn_row(
        &mut desk,
        digest(f, FIELDS, 0),
        digest(f, FIELDS, 1),
        digest(f, FIELDS, 2),
    );
    desk.outcome(Kind::Turn, answer)
}

/// The row of 0a: m1 is EI(x,y) and m2 is EI(y,z); answers EI(x,z).
fn chain_row(
    desk: &mut Desk,
    x: [u8; 32],
    y: [u8; 32],
    m1: [u8; 32],
    z: [u8; 32],
    m2: [u8; 32],
) -> Result<[u8; 32], Refusal>
    requires { desk.old.blocks ≡ 0 }
    ensures { outcome_at 10 result desk.new ≡ row desk.old.registers 10 (Q.chain x y m1 z m2) }
{
    desk.is_open()?;
    desk.fits(Memo::Ei(x, y), m1, Refusal::First)?;
    desk.fits(Memo::Ei(y, z), m2, Refusal::Second)?;
    Ok(desk.issue(Memo::Ei(x, z)))
}

/// 0a: x, y, m1, z, m2.
#[inline(never)]
pub fn chain(r: Registers, f: &[u8]) -> Outcome
    ensures { result ≡ outcome_for r 10 (request_at 10 f.now) }
{
    let mut desk = Desk::new(r);
    let answer = chain_row(
        &mut desk,
        digest(f, FIELDS, 0),
        digest(f, FIELDS, 1),
        digest(f, FIELDS, 2),
        digest(f, FIELDS, 3),
        digest(f, FIELDS, 4),
    );
    desk.outcome(Kind::Chain, answer)
}
