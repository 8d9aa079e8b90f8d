//! Kinds 0e and 0f: questions. Each public function answers a frame of its kind, on registers by value, and changes none.
#![tactic(auto)]

ghost use Rattle.std.specs.Prelude.{◌≡◌, eqb};
ghost use Rattle.seqs.specs.Choose.{either};
ghost use Rattle.paper.specs.Strings as S;
ghost use Rattle.paper.specs.Requests as Q;
ghost use Rattle.paper.specs.Answers.{finding_bytes};
ghost use Rattle.replies.specs.Outcomes.{outcome_for};
ghost use Rattle.checks.specs.Steps.{outcome_at, row};
ghost use Rattle.places.specs.Places.{request_at};
ghost use Rattle.question_kinds.specs.Questions.{told};

use checks::Desk;
use digests::Memo;
use paper::{Finding, Item, Kind, Record, Refusal, Registers};
use places::{FIELDS, NUMBER, RECORD, digest, item, record_at};
use replies::Outcome;

// The public functions are kept out of line: together they would be one, with room on the stack for what each of them needs.
// A row's function is lent its desk, as the blocks have to outlive a `?`; that none are counted yet is a clause of each, since a type for
// such a desk would be another after the first check. What it takes are the fields of its kind's row of the table, one by one.

/// The row of 0f: the list is empty; answers q.
fn ask_none_row(desk: &mut Desk, q: Item) -> Result<[u8; 8], Refusal>
    requires { desk.old.blocks ≡ 0 }
    ensures { outcome_at 15 result desk.new ≡ row desk.old.registers 15 (Q.ask_none q.0) }
{
    desk.is_open()?;
    desk.check(q.0 != 0, Refusal::Zero)?;
    desk.is_root([0; 32])?;
    Ok(fields::spelled(q.0))
}

/// 0f ask of none: q.
#[inline(never)]
pub fn ask_none(r: Registers, f: &[u8]) -> Outcome
    ensures { result ≡ outcome_for r 15 (request_at 15 f.now) }
{
    let mut desk = Desk::new(r);
    let answer = ask_none_row(&mut desk, item(f, 0));
    desk.outcome(Kind::AskNone, answer)
}

/// Whether q is a, or in the gap behind it.
fn meets(q: Item, a: Item, b: Item) -> bool
    ensures { result ≡ either (eqb q.0 a.0) (S.in_gap q.0 a.0 b.0) }
{
    q == a || records::in_gap(q, a, b)
}

/// An ask's reply: exactly one of three findings (§10.1.5).
#[derive(Clone, Copy)]
struct AskReply {
    finding: Finding,
}

/// The row of 0e: q is A or in the gap of A and A'; m is V1 of the leaf of A, A' and the record, and y is the root; answers what the
/// leaf says of q.
#[tactic(auto, using(paper::proofs::Ceilings::cost_append))]
fn ask_row(
    desk: &mut Desk,
    q: Item,
    a: Item,
    b: Item,
    rec: Record,
    y: [u8; 32],
    m: [u8; 32],
) -> Result<AskReply, Refusal>
    requires { desk.old.blocks ≡ 0 }
    ensures { outcome_at 14 (told result) desk.new ≡ row desk.old.registers 14 (Q.ask q.0 a.0 b.0 rec y m) }
{
    desk.is_open()?;
    desk.check(q.0 != 0, Refusal::Zero)?;
    desk.check(a.0 != 0, Refusal::Zero)?;
    desk.check(b.0 != 0, Refusal::Zero)?;
    desk.check(!records::is_malformed(rec), Refusal::Malformed)?;
    desk.check(meets(q, a, b), Refusal::Gap)?;
    let x = desk.leaf(a, b, rec);
    desk.fits(Memo::V1(x, y), m, Refusal::First)?;
    desk.is_root(y)?;
    Ok(AskReply {
        finding: records::finding(q, a, b, rec),
    })
}

/// A finding's bytes.
// Three functions, as the three have arrays of their own lengths; one for all would hand out bytes with their number beside.
fn recorded(a: Item, rec: Record) -> [u8; 41]
    ensures { result ≡ finding_bytes (Finding.Recorded a rec) }
{
    let mut s = [1; 41];
    fields::put(&mut s, 1, &fields::spelled(a.0));
    fields::put(&mut s, 9, &records::record_bytes(rec));
    s
}

fn listed(a: Item) -> [u8; 9]
    ensures { result ≡ finding_bytes (Finding.Listed a) }
{
    let mut s = [2; 9];
    fields::put(&mut s, 1, &fields::spelled(a.0));
    s
}

fn gap(a: Item, b: Item) -> [u8; 17]
    ensures { result ≡ finding_bytes (Finding.Gap a b) }
{
    let mut s = [3; 17];
    fields::put(&mut s, 1, &fields::spelled(a.0));
    fields::put(&mut s, 9, &fields::spelled(b.0));
    s
}

/// An ask's outcome: a finding as its bytes.
fn outcome(desk: &Desk, answer: Result<AskReply, Refusal>) -> Outcome
    ensures { result ≡ outcome_at 14 (told answer) desk.now }
{
    let reply = match answer {
        Ok(reply) => reply,
        Err(refusal) => return desk.outcome::<0>(Kind::Ask, Err(refusal)),
    };
    match reply.finding {
        Finding::Recorded(a, rec) => desk.outcome(Kind::Ask, Ok(recorded(a, rec))),
        Finding::Listed(a) => desk.outcome(Kind::Ask, Ok(listed(a))),
        Finding::Gap(a, b) => desk.outcome(Kind::Ask, Ok(gap(a, b))),
    }
}

const ASK_RECORD: u16 = FIELDS + 3 * NUMBER;

const ASK_DIGESTS: u16 = ASK_RECORD + RECORD;

/// 0e ask: q, A, A', record, y, m.
#[inline(never)]
pub fn ask(r: Registers, f: &[u8]) -> Outcome
    ensures { result ≡ outcome_for r 14 (request_at 14 f.now) }
{
    let mut desk = Desk::new(r);
    let answer = ask_row(
        &mut desk,
        item(f, 0),
        item(f, 1),
        item(f, 2),
        record_at(f, ASK_RECORD),
        digest(f, ASK_DIGESTS, 0),
        digest(f, ASK_DIGESTS, 1),
    );
    outcome(&desk, answer)
}
