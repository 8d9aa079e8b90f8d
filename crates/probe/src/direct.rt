//! Direct calls of the module, with its registers by value and where they lie: for registers, reply spaces and lines that
//! no session reaches from an unopened module with its fixed reply space, as a counter at its top, or a line that holds 0A.
ghost use Rattle.module.specs.Laws.{Promised};

use module::Answered;
use paper::{Registers, Revision};
use std::io::Print;

/// The registers in 73 bytes: root, counter, secret, and 1 where they are open.
fn registers_in(bytes: &[u8]) -> Registers {
    Registers {
        root: fields::digest_at(bytes, 0),
        counter: Revision(fields::number_at(bytes, 32)),
        secret: fields::digest_at(bytes, 40),
        opened: fields::byte_at(bytes, 72) == 1,
    }
}

/// Prints the number of the refusal, the length of the reply's line, the blocks, the registers as `registers_in` finds them, and the
/// digest of the whole reply space afterwards.
fn print_answered(rt: &HostRuntime, a: Answered, space: &[u8]) {
    let [.., high, low] = a.reply.length.to_be_bytes();
    let mut out = [0u8; 116];
    fields::put(&mut out, 0, &[a.reply.refused.unwrap_or(0), high, low]);
    fields::put(&mut out, 3, &fields::spelled(a.reply.blocks));
    fields::put(&mut out, 11, &a.registers.root);
    fields::put(&mut out, 43, &fields::spelled(a.registers.counter.0));
    fields::put(&mut out, 51, &a.registers.secret);
    fields::put(&mut out, 83, &[u8::from(a.registers.opened)]);
    fields::put(&mut out, 84, &sha256::digest(space));
    let mut line = [0u8; 233];
    hexadecimal::write(&out, &mut line);
    let _ = rt.write_all(&line);
}

/// The call on registers where they lie, which then come back by value.
fn answer_there(r: Registers, line: &[u8], space: &mut [u8]) -> Answered
    ensures { Promised r line.now space.old result space.new }
{
    let mut registers = r;
    let reply = module::answer_here(&mut registers, line, space);
    Answered { registers, reply }
}

/// A question of so many bytes of reply space; its bytes are those of the registers and those of the line.
#[tactic(auto, using(module::proofs::Laws::taken))]
pub(crate) fn direct_probe(rt: &HostRuntime, line: &[u8]) -> Option<()> {
    let (size, rest) = crate::sized(line)?;
    let mut question = [0u8; 4373];
    let n = crate::read_bytes(rest, &mut question)?;
    let (registers, sent) = question[..n].split_at_checked(73)?;
    if 1 < registers[72] {
        return None;
    }
    let r = registers_in(registers);
    let mut space = [0xeeu8; crate::SPACE];
    let space = &mut space[..size];
    let a = if fields::byte_at(line, 0) == b'h' {
        answer_there(r, sent, space)
    } else {
        module::answer(r, sent, space)
    };
    print_answered(rt, a, space);
    Some(())
}
