//! The tablet's tree in lent memory: 1,024 slots under ten levels, kept as the digests of all nodes, so that one leaf changed costs
//! the ten nodes above it and no more. Node 1 is the root, node v stands over nodes 2v and 2v + 1, slot i is node 1024 + i, and
//! node v's digest lies at byte 32v. Every function is total: a byte that is not there counts as 0, and what does not fit is not put.
#![tactic(auto)]

ghost use Rattle.std.specs.Prelude.{◌≡◌, ◌%◌, length, replicate};
ghost use Rattle.sha256.specs.Hash.{sha256};
ghost use Rattle.paper.specs.Strings.{up};
ghost use Rattle.slots.specs.Nodes.{node_at, sibling_at, put_node, rehashed, leaf_put, climbed, siblings_put};

// The nodes stay bytes, without a type of their own: docs/TRACE.md names the functions, and they answer for every slice.

// The definitions' names for these are `slot_count` and `level_count`; the contracts hold the code to those.

/// How many slots there are.
pub const SLOTS: usize = 1024;

/// How many levels stand above them.
pub const LEVELS: usize = 10;

/// Makes every byte 0, as it is while every slot is empty.
pub fn erase(nodes: &mut [u8])
    ensures { nodes.new ≡ replicate (length nodes.old) 0 }
{
    nodes.fill(0);
}

/// Node v's digest.
#[tactic(auto, unfolding(crate::specs::Nodes::node_at), using(crate::proofs::Turns::past_node))]
pub fn node_at(nodes: &[u8], v: usize) -> [u8; 32]
    ensures { result ≡ node_at nodes.now v }
{
    if nodes.len() / 32 < v {
        return [0; 32];
    }
    fields::digest_at(nodes, 32 * v)
}

/// Puts node v's digest, where it fits.
#[tactic(auto, unfolding(crate::specs::Nodes::put_node), using(crate::proofs::Turns::past_put))]
fn put_node(nodes: &mut [u8], v: usize, digest: [u8; 32])
    ensures { nodes.new ≡ put_node nodes.old v digest }
{
    if v <= nodes.len() / 32 {
        fields::put(nodes, 32 * v, &digest);
    }
}

/// Works anew what stands above node v, so many levels up.
fn rehash(nodes: &mut [u8], v: usize, levels: usize)
    ensures { nodes.new ≡ rehashed sha256 levels v nodes.old }
{
    let mut u = v;
    for _ in 0..levels {
        u /= 2;
        let d = digests::parent(node_at(nodes, 2 * u), node_at(nodes, 2 * u + 1));
        put_node(nodes, u, d.bytes);
    }
}

/// Puts a leaf's digest into a slot and works anew what stands above it; nothing where there is no such slot.
pub fn put_leaf(nodes: &mut [u8], slot: usize, digest: [u8; 32])
    ensures { nodes.new ≡ leaf_put sha256 nodes.old slot digest }
{
    if slot < SLOTS {
        put_node(nodes, SLOTS + slot, digest);
        rehash(nodes, SLOTS + slot, LEVELS);
    }
}

/// The digest beside node v: an odd node stands on the right.
#[tactic(auto, unfolding(crate::specs::Nodes::sibling_at))]
fn sibling(nodes: &[u8], v: usize) -> [u8; 32]
    ensures { result ≡ sibling_at nodes.now v }
{
    node_at(nodes, if v % 2 == 1 { v - 1 } else { v + 1 })
}

/// One level up from node v, were its own digest x.
fn step_up(nodes: &[u8], v: usize, x: [u8; 32]) -> [u8; 32]
    ensures { result ≡ up sha256 x (sibling_at nodes.now v) (v % 2) }
{
    let s = sibling(nodes, v);
    let (l, r) = if v % 2 == 1 { (s, x) } else { (x, s) };
    digests::parent(l, r).bytes
}

/// The digest so many levels above node v, were v's own digest x.
pub fn climb(nodes: &[u8], v: usize, levels: usize, x: [u8; 32]) -> [u8; 32]
    ensures { result ≡ climbed sha256 nodes.now levels v x }
{
    let mut y = x;
    let mut u = v;
    for _ in 0..levels {
        // By way of z: no proof is found where a call's array is laid over one that is lent to the call.
        let z = step_up(nodes, u, y);
        y = z;
        u /= 2;
    }
    y
}

/// The siblings on so many levels up from node v, one behind the other, at a place of a frame: those that fit there.
pub fn put_siblings(frame: &mut [u8], at: usize, nodes: &[u8], v: usize, levels: usize)
    ensures { frame.new ≡ siblings_put nodes.now levels v at frame.old }
{
    let mut u = v;
    let mut p = at;
    for _ in 0..levels {
        if frame.len() < p {
            return;
        }
        fields::put(frame, p, &sibling(nodes, u));
        u /= 2;
        p += 32;
    }
}
