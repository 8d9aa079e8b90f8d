//! Items and records by their numbers: whether a record stands for none, whether it is malformed, whether a mass is silly, a record's
//! bytes, and the gap behind an item. No digest is worked here.
#![tactic(auto)]

ghost use Rattle.std.specs.Prelude.{◌≡◌};
ghost use Rattle.paper.specs.Answers.{finding_of};
ghost use Rattle.paper.specs.Strings as S;

use paper::{Finding, Item, Kilograms, Millimetres, Record, Revision, Rigging};

/// The record that stands for none. The definitions' name for it is `empty_record`.
pub const EMPTY: Record = Record {
    revision: Revision(0),
    mass: Kilograms(0),
    offset: Millimetres(0),
    rigging: Rigging(0),
};

/// Whether a record stands for none.
pub fn is_blank(r: Record) -> bool
    ensures { result ≡ S.blank r }
{
    r.revision == Revision(0)
}

/// Whether a record has no revision and yet another number.
#[tactic(auto, unfolding(paper::specs::Strings::malformed))]
pub fn is_malformed(r: Record) -> bool
    ensures { result ≡ S.malformed r }
{
    is_blank(r) && (r.mass.0 != 0 || r.offset.0 != 0 || r.rigging.0 != 0)
}

/// The heaviest mass that a set may give.
const HEAVIEST: Kilograms = Kilograms(2_000_000);

/// Whether a mass is silly: none at all, or more than any load has, as where grams were typed for kilograms.
#[tactic(auto, unfolding(paper::specs::Strings::silly_mass))]
pub fn is_silly(mass: Kilograms) -> bool
    ensures { result ≡ S.silly_mass mass.0 }
{
    mass.0 == 0 || mass > HEAVIEST
}

/// A record's four numbers, one behind the other.
#[tactic(auto, unfolding(seqs::specs::Bytes::be64))]
pub fn record_bytes(r: Record) -> [u8; 32]
    ensures { result ≡ S.spread (S.nums (S.numbers r)) }
{
    let mut s = [0; 32];
    s[0..8].copy_from_slice(&r.revision.0.to_be_bytes());
    s[8..16].copy_from_slice(&r.mass.0.to_be_bytes());
    s[16..24].copy_from_slice(&r.offset.0.to_be_bytes());
    s[24..32].copy_from_slice(&r.rigging.0.to_be_bytes());
    s
}

/// Whether q lies in the gap of a and b.
#[tactic(auto, unfolding(paper::specs::Strings::in_gap))]
pub fn in_gap(q: Item, a: Item, b: Item) -> bool
    ensures { result ≡ S.in_gap q.0 a.0 b.0 }
{
    if a < b {
        a < q && q < b
    } else {
        q.0 != 0 && (a < q || q < b)
    }
}

/// What is found of the item q where item a's leaf leads to item b and has the record e: a record, an item listed without one, or a gap.
#[tactic(auto, unfolding(paper::specs::Answers::finding_of))]
pub fn finding(q: Item, a: Item, b: Item, e: Record) -> Finding
    ensures { result ≡ finding_of q.0 a.0 b.0 e }
{
    if q.0 != a.0 {
        Finding::Gap(a, b)
    } else if is_blank(e) {
        Finding::Listed(a)
    } else {
        Finding::Recorded(a, e)
    }
}
