//! Lines cut out of pieces of input.
#![tactic(auto)]

ghost use Rattle.std.specs.Prelude.{◌≡◌};
ghost use Rattle.pieces.specs.Cutting.{sought_in, cut_of};

/// What the rest of a piece gave. No Option: the bytes that are held of the next line are an answer too.
#[derive(Clone, Copy, Debug, PartialEq, Eq)]
pub enum Cut {
    /// A whole line: where the rest of the piece begins, and how many bytes of the space are the line's.
    Line(usize, usize),
    /// The piece is used up: how many bytes of the next line are held.
    More(usize),
}

/// Puts the bytes of the piece from place `at` on behind the held ones, up to 0A.
// The space and how many of its bytes are held stay two: docs/TRACE.md names the function, and it answers for every number.
pub fn next_line(piece: &[u8], at: usize, line: &mut [u8], held: usize) -> Cut
    ensures value { result ≡ cut_of (sought_in piece.now at line.old held) }
    ensures line_after { line.new ≡ (sought_in piece.now at line.old held).held.space }
{
    let mut n = held;
    for i in at..piece.len() {
        let b = piece[i];
        if b == 0x0a {
            return Cut::Line(i + 1, n);
        }
        if n < line.len() {
            line[n] = b;
            n += 1;
        }
    }
    Cut::More(n)
}
