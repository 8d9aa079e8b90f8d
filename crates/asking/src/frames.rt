//! Frames by what they carry: a kind, numbers and digests one behind the other; and a path's, out of the nodes in memory.
ghost use Rattle.std.specs.Prelude.{◌≡◌, ◌∷◌, ◌++◌, ◌%◌, ◌^◌, ◌≤◌, length};
ghost use Rattle.paper.specs.Strings.{nums, digs, spread};
ghost use Rattle.paper.specs.Numbers.{kind_number};
ghost use Rattle.paper.specs.Requests as Q;
ghost use Rattle.digests.specs.Speaking.{AllWhole};
ghost use Rattle.runs.specs.Frames.{frame_of};
ghost use Rattle.asking.specs.Saying.{path_from};

use buffers::Buffer;
use edits::Edit;
use paper::{Item, Kind, Record, Values};

// An edit is taken apart before its digests go into an array: tried without that, no proof is found. What a frame carries stays a row of
// parameters, as its kind's row of the table has it (docs/PROTOCOL.md, 5.1): a struct for each kind would say it twice.

/// A frame; the longest is a path of ten levels.
pub(crate) type Frame = Buffer<394>;

/// A frame without a path: its kind, its numbers and its digests.
fn frame(kind: Kind, numbers: &[u64], digests: &[[u8; 32]]) -> Frame
    requires { (length numbers.now ≤ 9) × (length digests.now ≤ 10) × AllWhole digests.now }
    ensures { result ≡ kind_number kind ∷ (spread (nums numbers.now) ++ spread (digs digests.now)) }
{
    let mut frame = Frame::new().with(&[kind.number()]);
    for &n in numbers {
        frame = frame.with(&fields::spelled(n));
    }
    for digest in digests {
        frame = frame.with(digest);
    }
    frame
}

/// The sides of a path so many levels up from node v: the last bits of v.
fn sides(v: usize, levels: usize) -> u64
    requires { levels ≤ 10 }
    ensures { result ≡ v % 2 ^ levels }
{
    (v % (1 << levels)) as u64
}

pub(crate) fn path(nodes: &[u8], v: usize, levels: usize, e: Edit) -> Frame
    requires { levels ≤ 10 }
    ensures { result ≡ frame_of (path_from nodes.now v levels e) }
{
    let mut siblings = [0u8; 320];
    slots::put_siblings(&mut siblings, 0, nodes, v, levels);
    Frame::new()
        .with(&[Kind::Path.number()])
        .with(&e.was)
        .with(&e.becomes)
        .with(&[levels as u8])
        .with(&fields::spelled(sides(v, levels)))
        .with(&siblings[..32 * levels])
}

// ── a frame for each kind without a path, by what it carries ──

pub(crate) fn pair(a: Edit, y: Edit, m1: [u8; 32], b: Edit, z: Edit, m2: [u8; 32]) -> Frame
    ensures { result ≡ frame_of (Q.pair a.was y.was a.becomes y.becomes m1 b.was z.was b.becomes z.becomes m2) }
{
    let Edit {
        was: x1,
        becomes: x1n,
    } = a;
    let Edit {
        was: y1,
        becomes: y1n,
    } = y;
    let Edit {
        was: x2,
        becomes: x2n,
    } = b;
    let Edit {
        was: z2,
        becomes: z2n,
    } = z;
    frame(
        Kind::Pair,
        &[],
        &[x1, y1, x1n, y1n, m1, x2, z2, x2n, z2n, m2],
    )
}

pub(crate) fn raise(a: Edit, b: Edit, n: Edit, m1: [u8; 32], root: Edit, m2: [u8; 32]) -> Frame
    ensures { result ≡ frame_of (Q.raise a.was b.was n.was a.becomes b.becomes n.becomes m1 root.was root.becomes m2) }
{
    let Edit {
        was: x1,
        becomes: x1n,
    } = a;
    let Edit {
        was: x2,
        becomes: x2n,
    } = b;
    let Edit {
        was: y,
        becomes: yn,
    } = n;
    let Edit {
        was: z,
        becomes: zn,
    } = root;
    frame(Kind::Raise, &[], &[x1, x2, y, x1n, x2n, yn, m1, z, zn, m2])
}

pub(crate) fn swap(a: Edit, b: Edit, root: Edit, m: [u8; 32]) -> Frame
    ensures { result ≡ frame_of (Q.swap a.was b.was root.was root.becomes m) }
{
    let Edit {
        was: y,
        becomes: yn,
    } = root;
    let Edit { was: x1, .. } = a;
    let Edit { was: x2, .. } = b;
    frame(Kind::Swap, &[], &[x1, x2, y, yn, m])
}

pub(crate) fn first(item: Item) -> Frame
    ensures { result ≡ frame_of (Q.first item.0) }
{
    frame(Kind::First, &[item.0], &[])
}

pub(crate) fn place(
    own: Item,
    item: Item,
    next: Item,
    hash: [u8; 32],
    root: Edit,
    m: [u8; 32],
) -> Frame
    ensures { result ≡ frame_of (Q.place own.0 item.0 next.0 hash root.was root.becomes m) }
{
    let Edit {
        was: y,
        becomes: yn,
    } = root;
    frame(Kind::Place, &[own.0, item.0, next.0], &[hash, y, yn, m])
}

pub(crate) fn turn(root: Edit, m: [u8; 32]) -> Frame
    ensures { result ≡ frame_of (Q.turn root.becomes root.was m) }
{
    let Edit { was: y, becomes: x } = root;
    frame(Kind::Turn, &[], &[x, y, m])
}

pub(crate) fn adopt(root: Edit, m: [u8; 32]) -> Frame
    ensures { result ≡ frame_of (Q.adopt root.was root.becomes m) }
{
    let Edit {
        was: y,
        becomes: yn,
    } = root;
    frame(Kind::Adopt, &[], &[y, yn, m])
}

pub(crate) fn set(item: Item, next: Item, e: Record, v: Values, root: Edit, m: [u8; 32]) -> Frame
    ensures { result ≡ frame_of (Q.set_to item.0 next.0 e v root.was root.becomes m) }
{
    let Edit {
        was: y,
        becomes: yn,
    } = root;
    frame(
        Kind::Set,
        &[
            item.0,
            next.0,
            e.revision.0,
            e.mass.0,
            e.offset.0,
            e.rigging.0,
            v.mass.0,
            v.offset.0,
            v.rigging.0,
        ],
        &[y, yn, m],
    )
}

pub(crate) fn clear(item: Item, next: Item, e: Record, root: Edit, m: [u8; 32]) -> Frame
    ensures { result ≡ frame_of (Q.clear item.0 next.0 e root.was root.becomes m) }
{
    let Edit {
        was: y,
        becomes: yn,
    } = root;
    frame(
        Kind::Clear,
        &[
            item.0,
            next.0,
            e.revision.0,
            e.mass.0,
            e.offset.0,
            e.rigging.0,
        ],
        &[y, yn, m],
    )
}

pub(crate) fn witness(a: Edit, root: Edit, m: [u8; 32]) -> Frame
    ensures { result ≡ frame_of (Q.witness a.was root.was m) }
{
    let Edit { was: x, .. } = a;
    let Edit { was: y, .. } = root;
    frame(Kind::Witness, &[], &[x, y, m])
}

pub(crate) fn ask(q: Item, item: Item, next: Item, e: Record, root: Edit, m: [u8; 32]) -> Frame
    ensures { result ≡ frame_of (Q.ask q.0 item.0 next.0 e root.was m) }
{
    let Edit { was: y, .. } = root;
    frame(
        Kind::Ask,
        &[
            q.0,
            item.0,
            next.0,
            e.revision.0,
            e.mass.0,
            e.offset.0,
            e.rigging.0,
        ],
        &[y, m],
    )
}

pub(crate) fn ask_none(q: Item) -> Frame
    ensures { result ≡ frame_of (Q.ask_none q.0) }
{
    frame(Kind::AskNone, &[q.0], &[])
}
