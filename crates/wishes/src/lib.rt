//! A wish, and whether the tablet refuses it by itself: by the first word that applies. Memory is only looked at, and of it no more
//! than 1,024 leaves.
#![tactic(auto)]

ghost use Rattle.std.specs.Prelude.{◌≡◌, ◌≤◌, Ok, Err};
ghost use Rattle.seqs.specs.Choose.{pick};
ghost use Rattle.rows.specs.Rows.{row_at};
ghost use Rattle.slots.specs.Nodes.{slot_count};
ghost use Rattle.wishes.specs.declared.Refused.TheVariants.{Unlisted};
ghost use Rattle.wishes.specs.Words.{RefusedOf, held_of, is_listed, own_place, refused_number, unless, word_for, word_name};

use paper::{Item, NotListed, Revision, TOP, Values};
use rows::{Row, Search};
use slots::SLOTS;

/// A wish: an item listed, taken out, given a record, cleared of it, or asked about.
#[derive(Clone, Copy, Debug, PartialEq, Eq)]
pub enum Wish {
    Insert(Item),
    Remove(Item),
    Set(Item, Values),
    Clear(Item),
    Ask(Item),
}

/// Why the tablet refuses a wish by itself.
#[derive(Clone, Copy, Debug, PartialEq, Eq)]
pub enum Refused {
    /// an item number 0
    Zero,
    /// a silly mass
    Mass,
    /// an insert of an item that is listed
    Listed,
    /// an item that is not
    Unlisted,
    /// a removal of an item that has a record
    Recorded,
    /// a clear of an item that has none
    Empty,
    /// an insert where every slot is taken
    Full,
    /// the counter is at its top
    Top,
}

impl Refused {
    /// Its number: the place of its word among the words.
    pub fn number(self) -> u8
        ensures { result ≡ refused_number self }
    {
        match self {
            Refused::Zero => 1,
            Refused::Mass => 2,
            Refused::Listed => 3,
            Refused::Unlisted => 4,
            Refused::Recorded => 5,
            Refused::Empty => 6,
            Refused::Full => 7,
            Refused::Top => 8,
        }
    }

    /// Its word.
    pub fn name(self) -> &'static [u8]
        ensures { result.now ≡ word_name (refused_number self) }
    {
        match self {
            Refused::Zero => b"zero",
            Refused::Mass => b"mass",
            Refused::Listed => b"listed",
            Refused::Unlisted => b"unlisted",
            Refused::Recorded => b"recorded",
            Refused::Empty => b"empty",
            Refused::Full => b"full",
            Refused::Top => b"top",
        }
    }
}

impl TryFrom<u8> for Refused {
    type Error = NotListed;

    ghost try_from_gives = { RefusedOf };

    fn try_from(number: u8) -> Result<Refused, NotListed> {
        match number {
            1 => Ok(Refused::Zero),
            2 => Ok(Refused::Mass),
            3 => Ok(Refused::Listed),
            4 => Ok(Refused::Unlisted),
            5 => Ok(Refused::Recorded),
            6 => Ok(Refused::Empty),
            7 => Ok(Refused::Full),
            8 => Ok(Refused::Top),
            _ => Err(NotListed(number)),
        }
    }
}

/// The leaves that there are slots for.
#[tactic(auto, unfolding(crate::specs::Words::held_of))]
pub fn held(count: usize) -> usize
    ensures value { result ≡ held_of count }
    ensures upper_bound { result ≤ slot_count }
{
    count.min(SLOTS)
}

fn check(holds: bool, otherwise: Refused) -> Result<(), Refused>
    ensures { result ≡ pick holds (Ok tt) (Err otherwise) }
{
    if holds { Ok(()) } else { Err(otherwise) }
}

/// The leaf of a listed item.
fn listed(leaves: &[u64], k: usize, a: Item) -> Result<Row, Refused>
    ensures { result ≡ pick (is_listed leaves.now k a.0) (Ok (row_at leaves.now (own_place leaves.now k a.0))) (Err Unlisted) }
{
    match rows::find(leaves, k, Search::Own, a) {
        Some(i) => Ok(rows::row_at(leaves, i)),
        None => Err(Refused::Unlisted),
    }
}

/// Whether the tablet refuses a wish, in a memory that holds so many leaves, with the counter that the module gave last: by the
/// first word whose test is true.
// Count, counter and leaves stay apart: docs/TRACE.md names the function, and it answers for any three of them.
#[tactic(auto, unfolding(crate::specs::Words::word_for))]
pub fn word(wish: Wish, count: usize, counter: Revision, leaves: &[u64]) -> Result<(), Refused>
    ensures { result ≡ unless (word_for leaves.now (held_of count) counter.0 wish) tt }
{
    let k = held(count);
    match wish {
        Wish::Insert(a) => {
            check(a.0 != 0, Refused::Zero)?;
            let found = rows::find(leaves, k, Search::Own, a);
            check(found.is_none(), Refused::Listed)?;
            check(k < SLOTS, Refused::Full)?;
            check(counter.0 != TOP, Refused::Top)
        }
        Wish::Remove(a) => {
            check(a.0 != 0, Refused::Zero)?;
            let row = listed(leaves, k, a)?;
            check(records::is_blank(row.entry), Refused::Recorded)?;
            check(counter.0 != TOP, Refused::Top)
        }
        Wish::Set(a, values) => {
            check(a.0 != 0, Refused::Zero)?;
            check(!records::is_silly(values.mass), Refused::Mass)?;
            listed(leaves, k, a)?;
            check(counter.0 != TOP, Refused::Top)
        }
        Wish::Clear(a) => {
            check(a.0 != 0, Refused::Zero)?;
            let row = listed(leaves, k, a)?;
            check(!records::is_blank(row.entry), Refused::Empty)?;
            check(counter.0 != TOP, Refused::Top)
        }
        Wish::Ask(q) => check(q.0 != 0, Refused::Zero),
    }
}
