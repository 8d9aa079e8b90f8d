//! What changes in the tablet's tree where one leaf does, or two: the digests of the places concerned and of what stands above them, as
//! memory has them and as they will be. Memory is only looked at. A slot that is not there changes nothing.
#![tactic(auto)]

ghost use Rattle.std.specs.Prelude.{◌≡◌, ◌<◌};
ghost use Rattle.sha256.specs.Hash.{sha256};
ghost use Rattle.slots.specs.Nodes.{slot_count, ancestor, meeting};
ghost use Rattle.edits.specs.Changes.{risen_at, at_one, no_place, forked_at, one_place, two_places, still_place};

use slots::{LEVELS, SLOTS};

/// What stands at a place, and what will.
#[derive(Clone, Copy)]
pub struct Edit {
    pub was: [u8; 32],
    pub becomes: [u8; 32],
}

/// Nothing there, and nothing to come. The definition's name for it is `no_edit`.
const NO_EDIT: Edit = Edit {
    was: [0; 32],
    becomes: [0; 32],
};

/// What changes in the tree: one slot, or two and how many levels stand below the halves of the lowest node above both; the leaves,
/// those halves, that node and the root. Of one slot there is only the left leaf, and the root.
#[derive(Clone, Copy)]
pub struct Change {
    pub left: usize,
    pub right: usize,
    pub levels: usize,
    pub a: Edit,
    pub b: Edit,
    pub y: Edit,
    pub z: Edit,
    pub node: Edit,
    pub root: Edit,
}

/// What changes above two leaves: the halves of the lowest node above both, that node, and the root.
#[derive(Clone, Copy)]
struct Forked {
    y: Edit,
    z: Edit,
    node: Edit,
    root: Edit,
}

/// How many levels stand below the halves of the lowest node above both u and v, in a tree of that many levels and one more.
fn meeting_of(u: usize, v: usize, most: usize) -> usize
    ensures { result ≡ meeting most u v }
{
    let mut p = u;
    let mut q = v;
    for k in 0..most {
        if p / 2 == q / 2 {
            return k;
        }
        p /= 2;
        q /= 2;
    }
    most
}

/// The node so many levels above v.
pub fn ancestor_of(levels: usize, v: usize) -> usize
    ensures { result ≡ ancestor levels v }
{
    let mut u = v;
    for _ in 0..levels {
        u /= 2;
    }
    u
}

/// What stands so many levels above node v, and what will where v's own digest becomes x.
#[tactic(auto, unfolding(crate::specs::Changes::risen_at))]
fn risen(nodes: &[u8], v: usize, levels: usize, x: [u8; 32]) -> Edit
    ensures { result ≡ risen_at sha256 nodes.now v levels x }
{
    Edit {
        was: slots::node_at(nodes, ancestor_of(levels, v)),
        becomes: slots::climb(nodes, v, levels, x),
    }
}

/// A change of one slot, by its leaf and the root.
fn at_one(i: usize, a: Edit, root: Edit) -> Change
    ensures { result ≡ at_one i a root }
{
    Change {
        left: i,
        right: i,
        levels: 0,
        a,
        b: NO_EDIT,
        y: NO_EDIT,
        z: NO_EDIT,
        node: NO_EDIT,
        root,
    }
}

/// A slot that is not there.
pub fn no_place(i: usize) -> Change
    ensures { result ≡ no_place i }
{
    at_one(i, NO_EDIT, NO_EDIT)
}

/// Slot i's leaf becomes x.
#[tactic(auto, unfolding(crate::specs::Changes::one_place))]
pub fn one_place(nodes: &[u8], i: usize, x: [u8; 32]) -> Change
    ensures { result ≡ one_place sha256 nodes.now i x }
{
    if SLOTS <= i {
        return no_place(i);
    }
    let u = SLOTS + i;
    at_one(i, risen(nodes, u, 0, x), risen(nodes, u, LEVELS, x))
}

/// Slot i's leaf stays as it is.
#[tactic(auto, unfolding(crate::specs::Changes::still_place))]
pub fn still_place(nodes: &[u8], i: usize) -> Change
    ensures { result ≡ still_place nodes.now i }
{
    if SLOTS <= i {
        return no_place(i);
    }
    let x = slots::node_at(nodes, SLOTS + i);
    let r = slots::node_at(nodes, 1);
    at_one(i, Edit { was: x, becomes: x }, Edit { was: r, becomes: r })
}

/// Node u's digest becomes x and node v's becomes w: what changes from there on up, k levels standing below the halves.
fn above_two(nodes: &[u8], u: usize, v: usize, k: usize, x: [u8; 32], w: [u8; 32]) -> Forked
    requires { k < 10 }
    ensures { result ≡ forked_at sha256 nodes.now u v k x w }
{
    let y = risen(nodes, u, k, x);
    let z = risen(nodes, v, k, w);
    let n = digests::parent(y.becomes, z.becomes).bytes;
    let top = ancestor_of(k + 1, u);
    Forked {
        y,
        z,
        node: risen(nodes, top, 0, n),
        root: risen(nodes, top, LEVELS - 1 - k, n),
    }
}

/// Slot i's leaf becomes x and slot j's becomes w.
pub fn two_places(nodes: &[u8], i: usize, j: usize, x: [u8; 32], w: [u8; 32]) -> Change
    ensures { result ≡ two_places sha256 nodes.now i j x w }
{
    if SLOTS <= i || SLOTS <= j {
        return no_place(i);
    }
    let u = SLOTS + i;
    let v = SLOTS + j;
    let k = meeting_of(u, v, LEVELS - 1);
    let f = above_two(nodes, u, v, k, x, w);
    Change {
        left: i,
        right: j,
        levels: k,
        a: risen(nodes, u, 0, x),
        b: risen(nodes, v, 0, w),
        y: f.y,
        z: f.z,
        node: f.node,
        root: f.root,
    }
}
