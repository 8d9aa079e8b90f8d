//! A frame's fields where its kind's row of the table puts them: behind the kind's byte numbers, then a record, then a set's
//! values, then digests, as far as the row has them; a path's n, sides and siblings behind its two digests. Every function is
//! total: a byte that is not there counts as 0.
#![tactic(auto)]

ghost use Rattle.std.specs.Prelude.{◌≡◌};
ghost use Rattle.paper.specs.Requests.{record_in, values_in};
ghost use Rattle.places.specs.Places.{bytes_at, item_in, digest_in};

use fields::{digest_at, number_at};
use paper::{Item, Kilograms, Millimetres, Record, Revision, Rigging, Values};

/// The place behind the kind's byte, and how many bytes a number, a record and a set's values take.
pub const FIELDS: u16 = 1;

pub const NUMBER: u16 = 8;

pub const RECORD: u16 = 32;

pub const VALUES: u16 = 24;

/// The i-th number of those behind the kind's byte, counted from 0, as an item's.
pub fn item(f: &[u8], i: u8) -> Item
    ensures { result.0 ≡ item_in f.now i }
{
    Item(number_at(f, 1 + 8 * (i as usize)))
}

/// The i-th digest of those from a place on, counted from 0.
pub fn digest(f: &[u8], from: u16, i: u8) -> [u8; 32]
    ensures { result ≡ digest_in f.now from i }
{
    digest_at(f, (from as usize) + 32 * (i as usize))
}

// Not one with `values_at`: a record's four numbers and a set's three are two types of the paper, whose fields have names.
pub fn record_at(f: &[u8], at: u16) -> Record
    ensures { result ≡ record_in (bytes_at f.now at 32) }
{
    let p = at as usize;
    Record {
        revision: Revision(number_at(f, p)),
        mass: Kilograms(number_at(f, p + 8)),
        offset: Millimetres(number_at(f, p + 16)),
        rigging: Rigging(number_at(f, p + 24)),
    }
}

pub fn values_at(f: &[u8], at: u16) -> Values
    ensures { result ≡ values_in (bytes_at f.now at 24) }
{
    let p = at as usize;
    Values {
        mass: Kilograms(number_at(f, p)),
        offset: Millimetres(number_at(f, p + 8)),
        rigging: Rigging(number_at(f, p + 16)),
    }
}
