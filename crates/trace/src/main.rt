//! A program for tests: it answers lines as `knotcinder` does, and behind each reply stand, in decimal, the number of its
//! refusal, 0 where there is none, and the SHA-256 blocks worked. One line at a time: its speed is nobody's concern.
#![tactic(auto)]

use module::Replied;
use paper::{LONGEST_LINE, REPLY_ROOM, Registers};
use pieces::Cut;
use std::io;
use std::io::{Eprint, Print, Read};

/// Prints the reply at the front of its space without its 0A, and behind it the numbers; nothing where there is no reply.
fn print_reply(rt: &HostRuntime, space: &[u8], reply: Replied) {
    if 0 < reply.length && reply.length <= space.len() {
        let refused = reply.refused.unwrap_or(0);
        let blocks = reply.blocks;
        let _ = rt.write_all(&space[..reply.length - 1]);
        let _ = println!(rt; " {refused} {blocks}");
    }
}

fn answer_line(rt: &HostRuntime, r: Registers, line: &[u8]) -> Registers {
    let mut space = [0u8; REPLY_ROOM];
    let a = module::answer(r, line, &mut space);
    print_reply(rt, &space, a.reply);
    a.registers
}

/// A last line without 0A, if anything is held of one.
fn end(rt: &HostRuntime, r: Registers, line: &[u8], held: usize) {
    let mut space = [0u8; REPLY_ROOM];
    let a = session::finish(r, line, held, &mut space);
    print_reply(rt, &space, a.reply);
}

/// Cuts line after line out of the piece at hand, and reads the next piece where it is used up, to the end of the input; the turns
/// are counted, as a proved loop has to end. A read that fails is not the end of the input.
// `probe` has such a loop too: one for both would be a library that reads, with a closure to carry the registers, and no plainer.
fn run(rt: &HostRuntime, input: &mut [u8], line: &mut [u8]) -> io::Result<()> {
    let mut registers = session::fresh();
    let mut size: usize = 0;
    let mut at: usize = 0;
    let mut held: usize = 0;
    for _ in 0..u64::MAX {
        match pieces::next_line(&input[..size], at, line, held) {
            Cut::Line(next, len) => {
                registers = answer_line(rt, registers, &line[..len.min(line.len())]);
                at = next;
                held = 0;
            }
            Cut::More(len) => {
                size = rt.stdin().read(input)?;
                if size == 0 {
                    end(rt, registers, line, len);
                    return Ok(());
                }
                at = 0;
                held = len;
            }
        }
    }
    Ok(())
}

fn main(rt: HostRuntime) {
    let mut input = [0u8; 65536];
    let mut line = [0u8; LONGEST_LINE + 1];
    if run(&rt, &mut input, &mut line).is_err() {
        let _ = eprintln!(rt; "trace: standard input could not be read; the program stops here");
    }
}
