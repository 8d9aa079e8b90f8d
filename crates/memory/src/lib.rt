//! The keeper's memory: a tablet's leaves, six numbers each in the order of their slots, beside the nodes of the tree over them. A
//! leaf put into both, and a store loaded.
#![tactic(auto)]

ghost use Rattle.std.specs.Prelude.{◌≡◌, true, length};
ghost use Rattle.sha256.specs.Hash.{sha256};
ghost use Rattle.slots.specs.Nodes.{leaf_put};
ghost use Rattle.rows.specs.Rows.{row_digest, row_put};
ghost use Rattle.store.specs.Texts.{text_read};
ghost use Rattle.memory.specs.Memory.{
  IsFault,
  leaves_put,
  digests_put,
  loaded_as,
  leaves_after,
  nodes_after,
};

use rows::Row;
use store::Fault;

// Leaves and nodes stay two slices: docs/TRACE.md names `put` and `load`, and they answer for slices of any length.

/// How many numbers there must be for the leaves. The definitions work it out of `slot_count`; the contracts hold the code to that.
pub const LEAVES: usize = 6144;

/// How many bytes there must be for the nodes, likewise.
pub const NODES: usize = 65536;

/// Why nothing is loaded: the text is no store, or there is no room for it.
#[derive(Clone, Copy, Debug, PartialEq, Eq)]
pub enum LoadError {
    Fault(Fault),
    NoRoom,
}

impl From<Fault> for LoadError {
    ghost from_gives = { IsFault };

    fn from(fault: Fault) -> LoadError {
        LoadError::Fault(fault)
    }
}

/// A leaf into its place, and its digest into its slot.
pub fn put(leaves: &mut [u64], nodes: &mut [u8], i: usize, r: Row)
    ensures leaves_after { leaves.new ≡ row_put leaves.old i r }
    ensures nodes_after { nodes.new ≡ leaf_put sha256 nodes.old i (row_digest sha256 r) }
{
    let digest = digests::leaf_of(r.item, r.next, r.entry).bytes;
    rows::put_row(leaves, i, r);
    slots::put_leaf(nodes, i, digest);
}

/// The leaves of n lines, one after the other.
fn put_lines(text: &[u8], n: usize, leaves: &mut [u64], nodes: &mut [u8])
    requires text_value { (text_read text.now).whole ≡ true }
    requires n_value { n ≡ length (text_read text.now).rows }
    ensures leaves_after { leaves.new ≡ leaves_put (text_read text.now).rows 0 leaves.old }
    ensures nodes_after { nodes.new ≡ digests_put sha256 (text_read text.now).rows 0 nodes.old }
{
    for i in 0..n {
        let at = store::LINE * i;
        let row = store::read_line(&text[at..at + store::DIGITS]).unwrap();
        put(leaves, nodes, i, row);
    }
}

/// Loads a store: every line a leaf, in the slot of its number, and how many they are. Nothing is changed where it is refused.
#[tactic(auto, unfolding(crate::specs::Memory::loaded_as, crate::specs::Memory::has_room))]
pub fn load(text: &[u8], leaves: &mut [u64], nodes: &mut [u8]) -> Result<usize, LoadError>
    ensures value { result ≡ loaded_as text.now leaves.old nodes.old }
    ensures leaves_after { leaves.new ≡ leaves_after result (text_read text.now).rows leaves.old }
    ensures nodes_after { nodes.new ≡ nodes_after sha256 result (text_read text.now).rows nodes.old }
{
    let n = store::judge(text, slots::SLOTS)?;
    if leaves.len() < LEAVES || nodes.len() != NODES {
        return Err(LoadError::NoRoom);
    }
    slots::erase(nodes);
    put_lines(text, n, leaves, nodes);
    Ok(n)
}
