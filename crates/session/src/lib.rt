//! A session: lines in, reply lines out, on registers that go by value from line to line.
//! A program that is given its input in pieces calls `serve` on each until it is used up, and `finish` at the end.
#![tactic(auto)]

ghost use Rattle.std.specs.Prelude.{◌≡◌, ◌≤◌, length, take};
ghost use Rattle.paper.specs.Strings.{nought};
ghost use Rattle.paper.specs.Module.{unopened};
ghost use Rattle.session.specs.Serving.{served_of, ServedAs, RepliedAs, FinishedAs};

use module::{Answered, Replied};
use paper::{REPLY_ROOM, Registers, Revision};
use pieces::Cut;

// A line's space and how many of its bytes are held stay apart: docs/TRACE.md names `serve` and `finish`, which answer for any two.

/// Where serving a piece came to: the registers, the place in the piece where the rest begins, how many bytes are held
/// of the line that is not whole yet, and how many bytes of the output are replies.
#[derive(Clone, Copy)]
pub struct Served {
    pub registers: Registers,
    pub next: usize,
    pub held: usize,
    pub filled: usize,
}

/// The registers of a module that nobody has opened yet.
pub fn fresh() -> Registers
    ensures { result ≡ unopened nought }
{
    Registers {
        root: [0u8; 32],
        counter: Revision(0),
        secret: [0u8; 32],
        opened: false,
    }
}

/// One line answered behind the replies that stand in the output already.
#[tactic(auto, using(crate::proofs::Laws::replied))]
fn reply_at(r: Registers, line: &[u8], out: &mut [u8], at: usize) -> Answered
    requires { at ≤ length out.old }
    ensures { RepliedAs r line.now at out.old result out.new }
{
    module::answer(r, line, &mut out[at..])
}

/// Answers the lines of a piece from place `at` on, one reply behind the other, as long as a reply has room.
/// The line's space holds `held` bytes of a line that began in an earlier piece.
pub fn serve(
    r: Registers,
    piece: &[u8],
    at: usize,
    line: &mut [u8],
    held: usize,
    out: &mut [u8],
) -> Served
    ensures { ServedAs (served_of r piece.now at line.old held out.old) result
        line.new out.new }
{
    let mut served = Served {
        registers: r,
        next: at,
        held: held.min(line.len()),
        filled: 0,
    };
    // No plainer as a `for`: how far a line reaches is known once it is cut.
    while served.next < piece.len() && REPLY_ROOM <= out.len() - served.filled {
        match pieces::next_line(piece, served.next, line, served.held) {
            Cut::Line(next, len) => {
                let a = reply_at(served.registers, &line[..len], out, served.filled);
                served = Served {
                    registers: a.registers,
                    next,
                    held: 0,
                    filled: served.filled + a.reply.length,
                };
            }
            Cut::More(len) => {
                served.next = piece.len();
                served.held = len;
            }
        }
    }
    served
}

/// At the end of the input: what is held of a last line without 0A, if anything is, is answered as a line, and what it came
/// to is returned: it may be a change like any other. An output of 194 bytes or less gets refusal 15, and nothing is written.
#[tactic(auto, using(crate::proofs::Laws::last_none, crate::proofs::Laws::last_some))]
pub fn finish(r: Registers, line: &[u8], held: usize, out: &mut [u8]) -> Answered
    ensures { FinishedAs r (take held line.now) out.old result out.new }
{
    let n = held.min(line.len());
    if n == 0 {
        return Answered {
            registers: r,
            reply: Replied::default(),
        };
    }
    module::answer(r, &line[..n], out)
}
