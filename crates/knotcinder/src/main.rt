//! The program: lines in on standard input, one reply line for each on standard output.
//! Replies go out together, and all of them before more input is waited for. `session` has the work and its law: what is
//! written, however the input arrives, is the replies to its lines (specs/Program.antt there follows the loops here).
#![tactic(auto)]

ghost use Rattle.std.specs.Prelude.{◌<◌, ◌≤◌, length, IfOk};
ghost use Rattle.paper.specs.Refusals.{longest_line, reply_room};
ghost use Rattle.knotcinder.specs.Loop.{Due, Standing, Through};

use paper::{LONGEST_LINE, Registers};
use std::io::{Print, Read};

/// The most bytes that one read takes, and the room for replies that go out together.
const PIECE: usize = 65536;

/// Why the program stops before the end of its input.
#[derive(Clone, Copy)]
enum Stop {
    Unread,
    Unwritten,
}

impl Stop {
    /// What is said of it. Bytes, and no `Display`: a formatter is called by way of its buffer, and how much stack that takes cannot be
    /// read off the compiled program (docs/EXCEPTIONS.md, "Stack").
    fn sentence(self) -> &'static [u8] {
        match self {
            Stop::Unread => {
                b"knotcinder: standard input could not be read; the program stops here, and a line whose end was not read gets no reply\n"
            }
            Stop::Unwritten => {
                b"knotcinder: a reply could not be written; the program stops here, and a line without a whole reply gets none\n"
            }
        }
    }
}

/// What the input so far left: the registers, and how many bytes are held of a line.
#[derive(Clone, Copy)]
struct Left {
    registers: Registers,
    held: usize,
}

/// The one place that writes replies. No contract can say what a call of the system does with these bytes; so the caller has to
/// show that they are exactly the replies due, and hands over what shows it: the registers before, the bytes held of a line, and
/// the part of the input behind them that the replies are for.
fn say(rt: &HostRuntime, r: Registers, held: &[u8], part: &[u8], replies: &[u8]) -> Result<(), Stop>
    requires { Due r held.now part.now replies.now }
{
    rt.write_all(replies).map_err(|_| Stop::Unwritten)
}

/// Answers a piece of input: as long as it has bytes left, lines are served and their replies written. What is held before a
/// call of `serve` is kept, as the call goes over the line's space.
/// The caller has to show that a session can stand here, and spaces as the law of a whole input asks for them; so in `end`.
fn serve_piece(
    rt: &HostRuntime,
    from: Left,
    piece: &[u8],
    line: &mut [u8],
    kept: &mut [u8],
    out: &mut [u8],
) -> Result<Left, Stop>
    requires held_in_bounds { (from.held ≤ length line.old) × (longest_line < length line.old) × (length line.old ≤ length kept.old)
        × (reply_room ≤ length out.old) }
    requires standing { Standing from.registers line.old from.held }
    ensures { IfOk result (λ o. Through from.registers piece.now line.old from.held o line.new) }
{
    let mut left = from;
    let mut at: usize = 0;
    // No plainer as a `for`: how far the replies reach is known once they are made.
    while at < piece.len() {
        kept[..left.held].copy_from_slice(&line[..left.held]);
        let o = session::serve(left.registers, piece, at, line, left.held, out);
        say(
            rt,
            left.registers,
            &kept[..left.held],
            &piece[at..o.next],
            &out[..o.filled],
        )?;
        left = Left {
            registers: o.registers,
            held: o.held,
        };
        at = o.next;
    }
    Ok(left)
}

/// Answers a last line without 0A, if anything is held of one (§4.1.5).
fn end(rt: &HostRuntime, left: Left, line: &[u8], out: &mut [u8]) -> Result<(), Stop>
    requires held_in_bounds { (left.held ≤ length line.now) × (longest_line < length line.now) × (reply_room ≤ length out.old) }
    requires standing { Standing left.registers line.now left.held }
{
    let a = session::finish(left.registers, line, left.held, out);
    if left.held == 0 {
        return Ok(());
    }
    say(
        rt,
        left.registers,
        &line[..left.held],
        b"\n",
        &out[..a.reply.length],
    )
}

/// Reads to the end of the input. Where a read or a write fails it stops; what is then held of a line is not
/// answered, as nobody knows how that line goes on.
/// A proved loop has to end, and nothing says that input does: the turns are counted by a number that no run uses up.
fn run(
    rt: &HostRuntime,
    input: &mut [u8],
    line: &mut [u8],
    kept: &mut [u8],
    out: &mut [u8],
) -> Result<(), Stop>
    requires { (longest_line < length line.old) × (length line.old ≤ length kept.old) × (reply_room ≤ length out.old) }
{
    let mut left = Left {
        registers: session::fresh(),
        held: 0,
    };
    for _ in 0..u64::MAX {
        let Ok(n) = rt.stdin().read(input) else {
            return Err(Stop::Unread);
        };
        if n == 0 {
            return end(rt, left, line, out);
        }
        left = serve_piece(rt, left, &input[..n], line, kept, out)?;
    }
    Ok(())
}

/// The line's space has a byte more than the longest line, so that a longer one shows.
/// Why the program stops early is said in words on standard error, as `main` hands no status on: `bin/knotcinder` makes one of them.
/// Where they cannot be written either, nothing is left to be said.
fn main(rt: HostRuntime) {
    let mut input = [0u8; PIECE];
    let mut line = [0u8; LONGEST_LINE + 1];
    let mut kept = [0u8; LONGEST_LINE + 1];
    let mut out = [0u8; PIECE];
    if let Err(stop) = run(&rt, &mut input, &mut line, &mut kept, &mut out) {
        let _ = rt.stderr().write_all(stop.sentence());
    }
}
