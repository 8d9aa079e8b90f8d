//! Kinds 01 to 05: what stands above what in the tree. Each public function answers a frame of its kind, on registers by value;
//! only path takes its fields, as its siblings come in an array that not every frame's n fits.
#![tactic(auto)]

ghost use Rattle.std.specs.Prelude.{◌≡◌, ◌++◌, ◌≤◌, length, take, OnOk};
ghost use Rattle.sha256.specs.Hash.{sha256};
ghost use Rattle.paper.specs.Strings as S;
ghost use Rattle.paper.specs.Requests as Q;
ghost use Rattle.paper.specs.Answers.{answer};
ghost use Rattle.digests.specs.Worked.{worked};
ghost use Rattle.replies.specs.Outcomes.{outcome_for};
ghost use Rattle.checks.specs.Steps.{blocks_more, outcome_at, row};
ghost use Rattle.places.specs.Places.{request_at};

use checks::Desk;
use digests::{Digest, Memo};
use paper::{Kind, MOST_SIBLINGS, Refusal, Registers};
use places::{FIELDS, digest};
use replies::Outcome;

// The public functions are kept out of line: together they would be one, with room on the stack for what each of them needs.
// A row's function is lent its desk, as the blocks have to outlive a `?`; that none are counted yet is a clause of each, since a type for
// such a desk would be another after the first check. What it takes are the fields of its kind's row of the table, one by one.

/// One level up, from u with its sibling s; bit is 1 if the sibling stands on the left.
#[tactic(auto, using(crate::proofs::PathLaws::level_cost))]
fn level(u: [u8; 32], s: [u8; 32], bit: u64) -> Digest
    ensures few { S.cost (S.up_forms sha256 u s bit) ≤ 2 }
    ensures is { result ≡ worked (S.up sha256 u s bit) (S.up_forms sha256 u s bit) }
{
    if bit == 1 {
        digests::parent(s, u)
    } else {
        digests::parent(u, s)
    }
}

/// Siblings folded level by level, the lowest first. They are lent: by value, each fold would have 2,048 bytes of them on the stack
/// once more.
fn fold(x: [u8; 32], siblings: &[[u8; 32]], sides: u64) -> Digest
    requires { length siblings.now ≤ 64 }
    ensures is { result ≡ worked (S.fold_up sha256 x sides siblings.now) (S.fold_forms sha256 x sides siblings.now) }
    ensures few { result.blocks ≤ 128 }
{
    let mut up = Digest {
        bytes: x,
        blocks: 0,
    };
    let mut bits = sides;
    for &sibling in siblings {
        let node = level(up.bytes, sibling, bits % 2);
        up = Digest {
            blocks: up.blocks + node.blocks,
            ..node
        };
        bits /= 2;
    }
    up
}

/// What a path's answer lists.
fn path_lists(y: [u8; 32], yn: [u8; 32], m: [u8; 32]) -> [u8; 96]
    ensures { result ≡ (y ++ yn) ++ m }
{
    let mut s = [0; 96];
    fields::put(&mut s, 0, &y);
    fields::put(&mut s, 32, &yn);
    fields::put(&mut s, 64, &m);
    s
}

/// The row of 01: folds x and x' up the path of the siblings; answers y, y' and U1(x,y,x',y').
#[tactic(auto, using(paper::proofs::Ceilings::cost_append))]
fn path_row(
    desk: &mut Desk,
    x: [u8; 32],
    xn: [u8; 32],
    sides: u64,
    siblings: &[[u8; 32]],
) -> Result<[u8; 96], Refusal>
    requires { (desk.old.blocks ≡ 0) × (length siblings.now ≤ 64) }
    ensures is { outcome_at 1 result desk.new ≡ row desk.old.registers 1 (Q.path x xn sides siblings.now) }
    ensures room { OnOk result (length (answer sha256 desk.old.registers (Q.path x xn sides siblings.now)).lists ≤ 96) }
{
    desk.is_open()?;
    let y = fold(x, siblings, sides);
    let yn = fold(xn, siblings, sides);
    desk.work(y.blocks + yn.blocks);
    let m = desk.issue(Memo::U1(x, y.bytes, xn, yn.bytes));
    Ok(path_lists(y.bytes, yn.bytes, m))
}

/// 01: x, x', n, sides and n siblings, read already: the first n of the siblings, all of them where there are fewer.
#[inline(never)]
pub fn path(
    r: Registers,
    x: [u8; 32],
    xn: [u8; 32],
    n: usize,
    sides: u64,
    siblings: [[u8; 32]; MOST_SIBLINGS],
) -> Outcome
    ensures { result ≡ outcome_for r 1 (Q.path x xn sides (take n siblings)) }
{
    let mut desk = Desk::new(r);
    let answer = path_row(&mut desk, x, xn, sides, &siblings[..n.min(MOST_SIBLINGS)]);
    desk.outcome(Kind::Path, answer)
}

/// The row of 02: m is U1(x,y,x,y); answers V1(x,y).
fn witness_row(desk: &mut Desk, x: [u8; 32], y: [u8; 32], m: [u8; 32]) -> Result<[u8; 32], Refusal>
    requires { desk.old.blocks ≡ 0 }
    ensures { outcome_at 2 result desk.new ≡ row desk.old.registers 2 (Q.witness x y m) }
{
    desk.is_open()?;
    desk.fits(Memo::U1(x, y, x, y), m, Refusal::First)?;
    Ok(desk.issue(Memo::V1(x, y)))
}

/// 02: x, y, m.
#[inline(never)]
pub fn witness(r: Registers, f: &[u8]) -> Outcome
    ensures { result ≡ outcome_for r 2 (request_at 2 f.now) }
{
    let mut desk = Desk::new(r);
    let answer = witness_row(
        &mut desk,
        digest(f, FIELDS, 0),
        digest(f, FIELDS, 1),
        digest(f, FIELDS, 2),
    );
    desk.outcome(Kind::Witness, answer)
}

/// The row of 03: m1 is U1(x,y,x',y') and m2 is U1(y,z,y',z'), so that both halves meet; answers U1(x,z,x',z').
fn join_row(
    desk: &mut Desk,
    x: [u8; 32],
    y: [u8; 32],
    xn: [u8; 32],
    yn: [u8; 32],
    m1: [u8; 32],
    z: [u8; 32],
    zn: [u8; 32],
    m2: [u8; 32],
) -> Result<[u8; 32], Refusal>
    requires { desk.old.blocks ≡ 0 }
    ensures { outcome_at 3 result desk.new ≡ row desk.old.registers 3 (Q.join x y xn yn m1 z zn m2) }
{
    desk.is_open()?;
    desk.fits(Memo::U1(x, y, xn, yn), m1, Refusal::First)?;
    desk.fits(Memo::U1(y, z, yn, zn), m2, Refusal::Second)?;
    Ok(desk.issue(Memo::U1(x, z, xn, zn)))
}

/// 03: x, y, x', y', m1, z, z', m2.
#[inline(never)]
pub fn join(r: Registers, f: &[u8]) -> Outcome
    ensures { result ≡ outcome_for r 3 (request_at 3 f.now) }
{
    let mut desk = Desk::new(r);
    let answer = join_row(
        &mut desk,
        digest(f, FIELDS, 0),
        digest(f, FIELDS, 1),
        digest(f, FIELDS, 2),
        digest(f, FIELDS, 3),
        digest(f, FIELDS, 4),
        digest(f, FIELDS, 5),
        digest(f, FIELDS, 6),
        digest(f, FIELDS, 7),
    );
    desk.outcome(Kind::Join, answer)
}

/// A node of the tree, worked for the answer.
#[tactic(auto, using(crate::proofs::PathLaws::parent_cost))]
fn node(desk: &mut Desk, u: [u8; 32], v: [u8; 32]) -> [u8; 32]
    ensures is { result ≡ S.H sha256 u v }
    ensures counted { desk.new ≡ blocks_more desk.old (S.cost (S.parent_forms u v)) }
    ensures few { S.cost (S.parent_forms u v) ≤ 2 }
{
    let node = digests::parent(u, v);
    desk.work(node.blocks);
    node.bytes
}

/// The row of 04: m1 is U1(x1,y,x1',y') and m2 is U1(x2,z,x2',z'); answers U2 of x1 and x2 under one node, worked for it alone.
#[tactic(auto, using(paper::proofs::Ceilings::cost_append))]
fn pair_row(
    desk: &mut Desk,
    x1: [u8; 32],
    y: [u8; 32],
    x1n: [u8; 32],
    yn: [u8; 32],
    m1: [u8; 32],
    x2: [u8; 32],
    z: [u8; 32],
    x2n: [u8; 32],
    zn: [u8; 32],
    m2: [u8; 32],
) -> Result<[u8; 32], Refusal>
    requires { desk.old.blocks ≡ 0 }
    ensures { outcome_at 4 result desk.new ≡ row desk.old.registers 4 (Q.pair x1 y x1n yn m1 x2 z x2n zn m2) }
{
    desk.is_open()?;
    desk.fits(Memo::U1(x1, y, x1n, yn), m1, Refusal::First)?;
    desk.fits(Memo::U1(x2, z, x2n, zn), m2, Refusal::Second)?;
    let above = node(desk, y, z);
    let aboven = node(desk, yn, zn);
    Ok(desk.issue(Memo::U2(x1, x2, above, x1n, x2n, aboven)))
}

/// 04: x1, y, x1', y', m1, x2, z, x2', z', m2.
#[inline(never)]
pub fn pair(r: Registers, f: &[u8]) -> Outcome
    ensures { result ≡ outcome_for r 4 (request_at 4 f.now) }
{
    let mut desk = Desk::new(r);
    let answer = pair_row(
        &mut desk,
        digest(f, FIELDS, 0),
        digest(f, FIELDS, 1),
        digest(f, FIELDS, 2),
        digest(f, FIELDS, 3),
        digest(f, FIELDS, 4),
        digest(f, FIELDS, 5),
        digest(f, FIELDS, 6),
        digest(f, FIELDS, 7),
        digest(f, FIELDS, 8),
        digest(f, FIELDS, 9),
    );
    desk.outcome(Kind::Pair, answer)
}

/// The row of 05: m1 is U2(x1,x2,y,x1',x2',y') and m2 is U1(y,z,y',z'); answers U2(x1,x2,z,x1',x2',z').
fn raise_row(
    desk: &mut Desk,
    x1: [u8; 32],
    x2: [u8; 32],
    y: [u8; 32],
    x1n: [u8; 32],
    x2n: [u8; 32],
    yn: [u8; 32],
    m1: [u8; 32],
    z: [u8; 32],
    zn: [u8; 32],
    m2: [u8; 32],
) -> Result<[u8; 32], Refusal>
    requires { desk.old.blocks ≡ 0 }
    ensures { outcome_at 5 result desk.new ≡ row desk.old.registers 5 (Q.raise x1 x2 y x1n x2n yn m1 z zn m2) }
{
    desk.is_open()?;
    desk.fits(Memo::U2(x1, x2, y, x1n, x2n, yn), m1, Refusal::First)?;
    desk.fits(Memo::U1(y, z, yn, zn), m2, Refusal::Second)?;
    Ok(desk.issue(Memo::U2(x1, x2, z, x1n, x2n, zn)))
}

/// 05: x1, x2, y, x1', x2', y', m1, z, z', m2.
#[inline(never)]
pub fn raise(r: Registers, f: &[u8]) -> Outcome
    ensures { result ≡ outcome_for r 5 (request_at 5 f.now) }
{
    let mut desk = Desk::new(r);
    let answer = raise_row(
        &mut desk,
        digest(f, FIELDS, 0),
        digest(f, FIELDS, 1),
        digest(f, FIELDS, 2),
        digest(f, FIELDS, 3),
        digest(f, FIELDS, 4),
        digest(f, FIELDS, 5),
        digest(f, FIELDS, 6),
        digest(f, FIELDS, 7),
        digest(f, FIELDS, 8),
        digest(f, FIELDS, 9),
    );
    desk.outcome(Kind::Raise, answer)
}
