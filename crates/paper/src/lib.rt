//! The paper, docs/PROTOCOL.md, as types and numbers. The definitions over them are in specs/, which is the text to believe; of code
//! there is no more here than the numbers of its tables.
#![tactic(auto)]

ghost use Rattle.std.specs.Prelude.{◌≡◌};
ghost use Rattle.paper.specs.Numbers.{refusal_number, kind_number, RefusalOf, KindOf};

// The definitions' names for these are `most_siblings`, `before_siblings`, `longest_frame`, `longest_line`, `reply_room` and `top`;
// contracts hold the code to those.

/// A path's siblings at most (§5.2.1).
pub const MOST_SIBLINGS: usize = 64;

/// A path's frame before its siblings.
pub const BEFORE_SIBLINGS: usize = 74;

/// The longest frame (§4.1.3).
pub const LONGEST_FRAME: usize = 2122;

/// The longest line, in digits (§4.1.3).
pub const LONGEST_LINE: usize = 4244;

/// The space that every reply fits (§5.3.3).
pub const REPLY_ROOM: usize = 195;

/// The counter's top (§6.2.7).
pub const TOP: u64 = u64::MAX;

// A type for each sort of number, so that none is taken for another (§2.2.2, §10.1.2).

/// An item's number.
#[derive(Clone, Copy, Debug, PartialEq, Eq, PartialOrd, Ord)]
pub struct Item(pub u64);

/// The change counter is one too: the record that a set leaves has the raised counter as its revision.
#[derive(Clone, Copy, Debug, PartialEq, Eq, PartialOrd, Ord)]
pub struct Revision(pub u64);

#[derive(Clone, Copy, Debug, PartialEq, Eq, PartialOrd, Ord)]
pub struct Kilograms(pub u64);

#[derive(Clone, Copy, Debug, PartialEq, Eq, PartialOrd, Ord)]
pub struct Millimetres(pub u64);

#[derive(Clone, Copy, Debug, PartialEq, Eq, PartialOrd, Ord)]
pub struct Rigging(pub u64);

/// §3.4.1: a record.
#[derive(Clone, Copy, Debug, PartialEq, Eq)]
pub struct Record {
    pub revision: Revision,
    pub mass: Kilograms,
    pub offset: Millimetres,
    pub rigging: Rigging,
}

/// What a set carries of the record that it leaves: all but the revision, which is the raised counter.
#[derive(Clone, Copy, Debug, PartialEq, Eq)]
pub struct Values {
    pub mass: Kilograms,
    pub offset: Millimetres,
    pub rigging: Rigging,
}

/// §2.1.1 to §2.1.4: the registers.
// `opened` stays beside the secret, and no Option holds it: docs/TRACE.md names functions that answer for closed registers with any secret.
#[derive(Clone, Copy)]
pub struct Registers {
    pub root: [u8; 32],
    pub counter: Revision,
    pub secret: [u8; 32],
    pub opened: bool,
}

/// §5.2.14, §10.1.5: one of three findings, a record with its numbers, listed with none, or a gap.
#[derive(Clone, Copy, Debug, PartialEq, Eq)]
pub enum Finding {
    Recorded(Item, Record),
    Listed(Item),
    Gap(Item, Item),
}

/// The table of refusals (§6.2): why a line is not answered.
#[derive(Clone, Copy, Debug, PartialEq, Eq)]
pub enum Refusal {
    /// no line of hexadecimal digits, or too long
    Line,
    /// no such kind
    Kind,
    /// not of its kind's length, or no sound path
    Frame,
    /// an item number 0
    Zero,
    /// a malformed record
    Malformed,
    /// not in the gap
    Gap,
    /// the counter is at its top
    Top,
    /// the first memorandum does not match
    First,
    /// the second memorandum does not match
    Second,
    /// y is not the root
    Stale,
    /// a clear of an empty record
    Empty,
    /// a secret of zeros
    Secret,
    /// not open
    Unopened,
    /// open already
    Opened,
    /// too little space for the reply
    Room,
    /// a silly mass
    Mass,
}

impl Refusal {
    /// Its number in the table.
    pub fn number(self) -> u8
        ensures { result ≡ refusal_number self }
    {
        match self {
            Refusal::Line => 1,
            Refusal::Kind => 2,
            Refusal::Frame => 3,
            Refusal::Zero => 4,
            Refusal::Malformed => 5,
            Refusal::Gap => 6,
            Refusal::Top => 7,
            Refusal::First => 8,
            Refusal::Second => 9,
            Refusal::Stale => 10,
            Refusal::Empty => 11,
            Refusal::Secret => 12,
            Refusal::Unopened => 13,
            Refusal::Opened => 14,
            Refusal::Room => 15,
            Refusal::Mass => 16,
        }
    }
}

/// A number that is in none of the two tables' rows.
#[derive(Clone, Copy, Debug, PartialEq, Eq)]
pub struct NotListed(pub u8);

impl TryFrom<u8> for Refusal {
    type Error = NotListed;

    ghost try_from_gives = { RefusalOf };

    fn try_from(number: u8) -> Result<Refusal, NotListed> {
        match number {
            1 => Ok(Refusal::Line),
            2 => Ok(Refusal::Kind),
            3 => Ok(Refusal::Frame),
            4 => Ok(Refusal::Zero),
            5 => Ok(Refusal::Malformed),
            6 => Ok(Refusal::Gap),
            7 => Ok(Refusal::Top),
            8 => Ok(Refusal::First),
            9 => Ok(Refusal::Second),
            10 => Ok(Refusal::Stale),
            11 => Ok(Refusal::Empty),
            12 => Ok(Refusal::Secret),
            13 => Ok(Refusal::Unopened),
            14 => Ok(Refusal::Opened),
            15 => Ok(Refusal::Room),
            16 => Ok(Refusal::Mass),
            _ => Err(NotListed(number)),
        }
    }
}

/// The table of kinds (§5.1): what a frame asks.
#[derive(Clone, Copy, Debug, PartialEq, Eq)]
pub enum Kind {
    Path,
    Witness,
    Join,
    Pair,
    Raise,
    Swap,
    First,
    Place,
    Turn,
    Chain,
    Adopt,
    Set,
    Clear,
    Ask,
    AskNone,
    Open,
}

impl Kind {
    /// Its number in the table, the first byte of its frames.
    pub fn number(self) -> u8
        ensures { result ≡ kind_number self }
    {
        match self {
            Kind::Path => 1,
            Kind::Witness => 2,
            Kind::Join => 3,
            Kind::Pair => 4,
            Kind::Raise => 5,
            Kind::Swap => 6,
            Kind::First => 7,
            Kind::Place => 8,
            Kind::Turn => 9,
            Kind::Chain => 10,
            Kind::Adopt => 11,
            Kind::Set => 12,
            Kind::Clear => 13,
            Kind::Ask => 14,
            Kind::AskNone => 15,
            Kind::Open => 16,
        }
    }
}

impl TryFrom<u8> for Kind {
    type Error = NotListed;

    ghost try_from_gives = { KindOf };

    #[tactic(auto, unfolding(crate::specs::Requests::known, crate::specs::Requests::kinds))]
    fn try_from(number: u8) -> Result<Kind, NotListed> {
        match number {
            1 => Ok(Kind::Path),
            2 => Ok(Kind::Witness),
            3 => Ok(Kind::Join),
            4 => Ok(Kind::Pair),
            5 => Ok(Kind::Raise),
            6 => Ok(Kind::Swap),
            7 => Ok(Kind::First),
            8 => Ok(Kind::Place),
            9 => Ok(Kind::Turn),
            10 => Ok(Kind::Chain),
            11 => Ok(Kind::Adopt),
            12 => Ok(Kind::Set),
            13 => Ok(Kind::Clear),
            14 => Ok(Kind::Ask),
            15 => Ok(Kind::AskNone),
            16 => Ok(Kind::Open),
            _ => Err(NotListed(number)),
        }
    }
}
