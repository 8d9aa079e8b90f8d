//! A program for tests. Each line of standard input is a question, answered by one line on standard output before more
//! input is waited for:
//! - a message in hexadecimal: its digest;
//! - `r`, four hexadecimal digits and a line: what reading the line into a frame space of so many bytes comes to;
//! - `w`, four hexadecimal digits and a frame in hexadecimal: what writing it into a line space of so many bytes does;
//! - `m`, four hexadecimal digits, and in hexadecimal registers and the bytes of a line: what the module, called with these
//!   registers, that line and a reply space of so many bytes, does;
//! - `h` and the same: the same, called on the registers where they lie.
//! The answer to r and w is the refusal number (00 where there is none) and the digest of the whole space afterwards,
//! each byte of which was ee before; to m and h, all in hexadecimal, the refusal number, the length of the reply's line in four
//! digits, the blocks, the registers afterwards and that digest. `?` answers what is none of these.
#![tactic(auto)]

ghost use Rattle.std.specs.Prelude.{◌≡◌, ◌++◌, ◌≤◌, length, drop, IfSome};
ghost use Rattle.hexadecimal.specs.Hex.{bytes_of};
ghost use Rattle.probe.specs.Answer.{answer_of, message_in, told};

use paper::Refusal;
use pieces::Cut;
use std::io;
use std::io::{Eprint, Print, Read};

mod direct;

/// The largest space that a question may name.
pub(crate) const SPACE: usize = 4400;

/// The bytes that digits stand for, over the front of the space: how many, or none where they stand for none or do not fit.
#[tactic(auto, using(crate::proofs::Replies::even, hexadecimal::proofs::Laws::bytes_length), unfolding(crate::specs::Answer::message_in, seqs::specs::Over::written))]
pub(crate) fn read_bytes(digits: &[u8], space: &mut [u8]) -> Option<usize>
    ensures value { result ≡ message_in (length space.old) digits.now }
    ensures space_after { IfSome result (λ n. space.new ≡ bytes_of digits.now ++ drop n space.old) }
    ensures fits { IfSome result (λ n. n ≤ length space.new) }
{
    if digits.len() % 2 == 1
        || !hexadecimal::all_digits(digits)
        || !hexadecimal::read(digits, space)
    {
        return None;
    }
    Some(digits.len() / 2)
}

/// The line of a message's digest.
#[tactic(auto, using(module::proofs::Laws::taken, crate::proofs::Replies::no_message, crate::proofs::Replies::message))]
fn answer(line: &[u8], message: &mut [u8]) -> Option<[u8; 65]>
    ensures { told result ≡ answer_of (length message.old) line.now }
{
    let n = read_bytes(line, message)?;
    let digest = sha256::digest(&message[..n]);
    let mut reply = [0u8; 65];
    hexadecimal::write(&digest, &mut reply);
    Some(reply)
}

/// Prints a refusal's number and the digest of a space.
fn print_outcome(rt: &HostRuntime, refused: Option<Refusal>, space: &[u8]) {
    let number = refused.map_or(0, |refusal| refusal.number());
    let digits = [
        hexadecimal::high_digit(number),
        hexadecimal::low_digit(number),
    ];
    let mut line = [0u8; 65];
    hexadecimal::write(&sha256::digest(space), &mut line);
    let _ = rt.write_all(&digits);
    let _ = rt.write_all(&line);
}

/// The size that the four digits behind a probe's letter give, and what is behind them.
pub(crate) fn sized(line: &[u8]) -> Option<(usize, &[u8])>
    ensures { IfSome result (λ found. found.0 ≤ 4400) }
{
    let (digits, rest) = line.get(1..)?.split_at_checked(4)?;
    if !hexadecimal::all_digits(digits) {
        return None;
    }
    let high = hexadecimal::byte_at(digits, 0);
    let low = hexadecimal::byte_at(digits, 1);
    let size = u16::from_be_bytes([high, low]) as usize;
    if size <= SPACE {
        Some((size, rest))
    } else {
        None
    }
}

#[tactic(auto, using(module::proofs::Laws::taken))]
fn read_probe(rt: &HostRuntime, line: &[u8]) -> Option<()> {
    let (size, rest) = sized(line)?;
    let mut space = [0xeeu8; SPACE];
    let space = &mut space[..size];
    let refused = lines::read_line(rest, space).err();
    print_outcome(rt, refused, space);
    Some(())
}

#[tactic(auto, using(module::proofs::Laws::taken))]
fn write_probe(rt: &HostRuntime, line: &[u8]) -> Option<()> {
    let (size, rest) = sized(line)?;
    let mut frame = [0u8; 4096];
    let n = read_bytes(rest, &mut frame)?;
    let mut space = [0xeeu8; SPACE];
    let space = &mut space[..size];
    let refused = lines::write_frame(&frame[..n], space).err();
    print_outcome(rt, refused, space);
    Some(())
}

/// The line that says it.
fn said(answer: &Option<[u8; 65]>) -> &[u8]
    ensures { result.now ≡ told answer.now }
{
    match answer {
        Some(digest) => digest,
        None => b"?\n",
    }
}

fn message_probe(rt: &HostRuntime, line: &[u8]) -> Option<()> {
    let mut message = [0u8; 8192];
    let answer = answer(line, &mut message);
    let _ = rt.write_all(said(&answer));
    Some(())
}

/// Answers a question, by `?` where it is none.
fn print_answer(rt: &HostRuntime, line: &[u8]) {
    let answered = match line {
        [b'r', ..] => read_probe(rt, line),
        [b'w', ..] => write_probe(rt, line),
        [b'm' | b'h', ..] => direct::direct_probe(rt, line),
        _ => message_probe(rt, line),
    };
    if answered.is_none() {
        let _ = rt.write_all(b"?\n");
    }
}

/// Cuts question after question out of the piece at hand, and reads the next piece where it is used up.
/// A proved loop has to end, and nothing says that input does: the turns are counted by a number
/// that no run uses up. A read that fails is not the end of the input.
// `trace` has such a loop too: one for both would be a library that reads, with a closure to carry the registers, and no plainer.
fn run(rt: &HostRuntime, input: &mut [u8], line: &mut [u8]) -> io::Result<()> {
    let mut size: usize = 0;
    let mut at: usize = 0;
    let mut held: usize = 0;
    for _ in 0..u64::MAX {
        match pieces::next_line(&input[..size], at, line, held) {
            Cut::Line(next, len) => {
                print_answer(rt, &line[..len.min(line.len())]);
                at = next;
                held = 0;
            }
            Cut::More(len) => {
                size = rt.stdin().read(input)?;
                if size == 0 {
                    if 0 < len {
                        print_answer(rt, &line[..len.min(line.len())]);
                    }
                    return Ok(());
                }
                at = 0;
                held = len;
            }
        }
    }
    Ok(())
}

fn main(rt: HostRuntime) {
    let mut input = [0u8; 65536];
    let mut line = [0u8; 16385];
    if run(&rt, &mut input, &mut line).is_err() {
        let _ = eprintln!(rt; "probe: standard input could not be read; the program stops here");
    }
}
