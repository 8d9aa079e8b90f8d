//! A tablet's leaves in lent memory, six numbers each: A, A' and the record. Every function is total: a number that is not there
//! counts as 0, and what does not fit is not put.
#![tactic(auto)]

ghost use Rattle.std.specs.Prelude.{◌≡◌, ◌+◌, ◌*◌, get_or};
ghost use Rattle.rows.specs.Rows.{row_numbers, numbers_in, row_at, row_put, passing, found};

use paper::{Item, Kilograms, Millimetres, Record, Revision, Rigging};

// Leaves stay numbers in lent memory: docs/TRACE.md names `row_at`, `put_row` and `find`, and they answer for every slice of numbers.

/// How many numbers a leaf takes. The definitions' name for it is `row_numbers`; the contracts hold the code to that.
pub const NUMBERS: usize = 6;

/// A leaf, with its item's record in full.
#[derive(Clone, Copy, Debug, PartialEq, Eq)]
pub struct Row {
    pub item: Item,
    pub next: Item,
    pub entry: Record,
}

impl Row {
    /// Its numbers, in the order in which they lie.
    fn numbers(self) -> [u64; NUMBERS]
        ensures { result ≡ numbers_in self }
    {
        [
            self.item.0,
            self.next.0,
            self.entry.revision.0,
            self.entry.mass.0,
            self.entry.offset.0,
            self.entry.rigging.0,
        ]
    }
}

/// What is sought: the leaf of an item, the one that leads to it, the one whose gap holds it, or the one that answers a question on
/// it, its own or the one whose gap holds it.
// A value and no closure: docs/TRACE.md names `find`, and its definition, `passing`, goes by the value.
#[derive(Clone, Copy, Debug, PartialEq, Eq)]
pub enum Search {
    Own,
    Leading,
    Gap,
    Telling,
}

/// Number j of leaf i.
fn number(leaves: &[u64], i: usize, j: usize) -> u64
    ensures { result ≡ get_or leaves.now (row_numbers * i + j) 0 }
{
    let at = NUMBERS.saturating_mul(i).saturating_add(j);
    leaves.get(at).copied().unwrap_or(0)
}

/// Leaf i.
#[tactic(auto, unfolding(crate::specs::Rows::row_at))]
pub fn row_at(leaves: &[u64], i: usize) -> Row
    ensures { result ≡ row_at leaves.now i }
{
    Row {
        item: Item(number(leaves, i, 0)),
        next: Item(number(leaves, i, 1)),
        entry: Record {
            revision: Revision(number(leaves, i, 2)),
            mass: Kilograms(number(leaves, i, 3)),
            offset: Millimetres(number(leaves, i, 4)),
            rigging: Rigging(number(leaves, i, 5)),
        },
    }
}

/// Leaf i put at its place, where it fits.
#[tactic(auto, using(crate::proofs::Puts::row_mid, crate::proofs::Puts::row_past))]
pub fn put_row(leaves: &mut [u64], i: usize, r: Row)
    ensures { leaves.new ≡ row_put leaves.old i r }
{
    if i < leaves.len() / NUMBERS {
        let at = NUMBERS * i;
        leaves[at..at + NUMBERS].copy_from_slice(&r.numbers());
    }
}

/// Whether a leaf is what is sought of item a.
fn passes(by: Search, a: Item, r: Row) -> bool
    ensures { result ≡ passing by a.0 r }
{
    match by {
        Search::Own => a == r.item,
        Search::Leading => a == r.next,
        Search::Gap => records::in_gap(a, r.item, r.next),
        Search::Telling => a == r.item || records::in_gap(a, r.item, r.next),
    }
}

/// The place of the first of k leaves that is what is sought of item a.
#[tactic(auto, using(crate::proofs::Finding::found_here, crate::proofs::Finding::found_none))]
pub fn find(leaves: &[u64], k: usize, by: Search, a: Item) -> Option<usize>
    ensures { result ≡ found (passing by a.0) leaves.now k }
{
    for i in 0..k {
        if passes(by, a, row_at(leaves, i)) {
            return Some(i);
        }
    }
    None
}
