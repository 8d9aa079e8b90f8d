//! Lines: read into frames, written from them, and the lines of replies (docs/PROTOCOL.md, section 4).
#![tactic(auto)]

ghost use Rattle.std.specs.Prelude.{◌≡◌, [], ◌∷◌, ◌/◌, ◌^◌, ◌≤◌, eqb, length};
ghost use Rattle.seqs.specs.Bytes.{number_at};
ghost use Rattle.seqs.specs.Over.{written};
ghost use Rattle.hexadecimal.specs.Hex.{bytes_of, line_of};
ghost use Rattle.paper.specs.Refusals.{is_hex, judge};
ghost use Rattle.paper.specs.Numbers.{kind_number};
ghost use Rattle.paper.specs.Module.{refusal_of, frame_checks};
ghost use Rattle.lines.specs.Reading.{number_or_zero, read_told, read_of, frame_after, wrote_told, wrote_of, line_after, reply_length};
ghost use Rattle.lines.specs.Work.{shape_of, fitting, path_fits, KindFound};

use paper::{BEFORE_SIBLINGS, Kind, LONGEST_FRAME, LONGEST_LINE, Refusal};

/// What reading a line finds: the frame's kind, and how many bytes were written.
#[derive(Clone, Copy, Debug, PartialEq, Eq)]
pub struct Frame {
    pub kind: Kind,
    pub length: usize,
}

/// What the checks 2 and 3 look at: a frame's first byte and its size, and where a path has its n and its sides.
// The first byte is no `Kind`: check 2 finds out whether it is one.
#[derive(Clone, Copy)]
struct Shape {
    kind: u8,
    size: usize,
    n: u8,
    sides: u64,
}

impl Shape {
    fn of_frame(frame: &[u8]) -> Shape
        ensures { result ≡ shape_of frame.now }
    {
        Shape {
            kind: fields::byte_at(frame, 0),
            size: frame.len(),
            n: fields::byte_at(frame, 65),
            sides: fields::number_at(frame, 66),
        }
    }

    /// That of the frame that a line's digits stand for.
    #[tactic(auto, using(hexadecimal::proofs::Laws::bytes_length))]
    fn of_line(line: &[u8]) -> Shape
        ensures { result ≡ shape_of (bytes_of line.now) }
    {
        Shape {
            kind: hexadecimal::byte_at(line, 0),
            size: line.len() / 2,
            n: hexadecimal::byte_at(line, 65),
            sides: sides_of(line),
        }
    }

    /// No bit of sides at n or above.
    fn sides_fit(self) -> bool
        requires { self.n ≤ 64 }
        ensures { result ≡ eqb (self.sides / 2 ^ self.n) 0 }
    {
        self.n == 64 || self.sides >> self.n == 0
    }

    /// A path's: at most 64 siblings, and room for just these.
    fn path_fits(self) -> bool
        ensures { result ≡ path_fits self.size self.n self.sides }
    {
        self.n <= 64 && self.size == BEFORE_SIBLINGS + 32 * (self.n as usize) && self.sides_fit()
    }

    /// Check 3.
    #[tactic(auto, unfolding(crate::specs::Work::fitting))]
    fn fits(self, kind: Kind) -> bool
        ensures { result ≡ fitting (kind_number kind) self.size self.n self.sides }
    {
        match kind {
            Kind::Path => self.path_fits(),
            Kind::Witness | Kind::Turn | Kind::Adopt => self.size == 97,
            Kind::Join => self.size == 257,
            Kind::Pair | Kind::Raise => self.size == 321,
            Kind::Swap | Kind::Chain => self.size == 161,
            Kind::First | Kind::AskNone => self.size == 9,
            Kind::Place => self.size == 153,
            Kind::Set => self.size == 169,
            Kind::Clear => self.size == 145,
            Kind::Ask => self.size == 121,
            Kind::Open => self.size == 33,
        }
    }

    /// The kind, or the first of refusals 2 and 3.
    #[tactic(auto, using(crate::proofs::Fitting::known_kind), unfolding(crate::specs::Work::refusal_by))]
    fn found(self) -> Result<Kind, Refusal>
        ensures { KindFound self result }
    {
        let Ok(kind) = Kind::try_from(self.kind) else {
            return Err(Refusal::Kind);
        };
        if self.fits(kind) {
            Ok(kind)
        } else {
            Err(Refusal::Frame)
        }
    }
}

/// Refusal 1 of a line.
fn bad_line(line: &[u8]) -> bool
    ensures { result ≡ (is_hex line.now).fails }
{
    line.is_empty()
        || line.len() % 2 == 1
        || LONGEST_LINE < line.len()
        || !hexadecimal::all_digits(line)
}

/// The eight bytes that a line has for sides, if it is a path.
// `store` reads eight bytes of digits so, too: one function for both would be a public one of `hexadecimal`, which has no bytes joined to numbers.
#[tactic(auto, unfolding(seqs::specs::Bytes::number_at))]
fn sides_of(line: &[u8]) -> u64
    ensures { result ≡ number_at (bytes_of line.now) 66 }
{
    fields::join8(
        hexadecimal::byte_at(line, 66),
        hexadecimal::byte_at(line, 67),
        hexadecimal::byte_at(line, 68),
        hexadecimal::byte_at(line, 69),
        hexadecimal::byte_at(line, 70),
        hexadecimal::byte_at(line, 71),
        hexadecimal::byte_at(line, 72),
        hexadecimal::byte_at(line, 73),
    )
}

/// The first of refusals 2 and 3 that applies to a frame.
#[tactic(auto, using(crate::proofs::Fitting::own_by))]
pub fn frame_refusal(frame: &[u8]) -> Option<Refusal>
    ensures { number_or_zero result ≡ refusal_of (judge (2 ∷ 3 ∷ []) [] (frame_checks frame.now)) }
{
    Shape::of_frame(frame).found().err()
}

/// Reads a line, given without its 0A, into the frame space.
#[tactic(auto, using(crate::proofs::Outcomes::read_1, crate::proofs::Outcomes::refused_found, crate::proofs::Outcomes::no_room_found, crate::proofs::Outcomes::frame_found, hexadecimal::proofs::Laws::bytes_length), unfolding(seqs::specs::Over::written))]
pub fn read_line(line: &[u8], frame: &mut [u8]) -> Result<Frame, Refusal>
    ensures value { read_told result ≡ read_of line.now (length frame.old) }
    ensures frame_after { frame.new ≡ frame_after (read_told result) line.now frame.old }
{
    if bad_line(line) {
        return Err(Refusal::Line);
    }
    let kind = Shape::of_line(line).found()?;
    if !hexadecimal::read(line, frame) {
        return Err(Refusal::Room);
    }
    Ok(Frame {
        kind,
        length: line.len() / 2,
    })
}

/// Writes a frame as a line, with its 0A, into the line space: how many bytes were written.
#[tactic(auto, using(crate::proofs::Outcomes::write_1, crate::proofs::Outcomes::rejected_found, crate::proofs::Outcomes::no_line_found, crate::proofs::Outcomes::line_found, hexadecimal::proofs::Laws::line_length), unfolding(seqs::specs::Over::written))]
pub fn write_frame(frame: &[u8], line: &mut [u8]) -> Result<usize, Refusal>
    ensures value { wrote_told result ≡ wrote_of frame.now (length line.old) }
    ensures line_after { line.new ≡ line_after (wrote_told result) frame.now line.old }
{
    if frame.is_empty() || LONGEST_FRAME < frame.len() {
        return Err(Refusal::Line);
    }
    Shape::of_frame(frame).found()?;
    if !hexadecimal::write(frame, line) {
        return Err(Refusal::Room);
    }
    Ok(2 * frame.len() + 1)
}

/// Writes a reply's line, with its 0A, over the front of the space: its length, or none and nothing written where it
/// does not fit.
#[tactic(auto, unfolding(crate::specs::Reading::reply_length))]
pub fn write_reply(reply: &[u8], space: &mut [u8]) -> Option<usize>
    ensures value { result ≡ reply_length reply.now (length space.old) }
    ensures space_after { space.new ≡ written (line_of reply.now) space.old }
{
    hexadecimal::write(reply, space).then_some(2 * reply.len() + 1)
}
