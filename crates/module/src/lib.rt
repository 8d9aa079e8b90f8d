//! The module: a line in, a reply line out.
#![tactic(auto)]

ghost use Rattle.std.specs.Prelude.{◌≡◌};
ghost use Rattle.sha256.specs.Hash.{sha256};
ghost use Rattle.paper.specs.Refusals.{reply_room};
ghost use Rattle.paper.specs.Module.{answer_to};
ghost use Rattle.lines.specs.Reading.{read_told};
ghost use Rattle.replies.specs.Outcomes.{outcome_of};
ghost use Rattle.module.specs.Answering.{answered_with};
ghost use Rattle.module.specs.Laws.{Promised};
ghost use Rattle.module.specs.Work.{refusal_in};

use lines::Frame;
use paper::{LONGEST_FRAME, REPLY_ROOM, Refusal, Registers};
use replies::Outcome;

/// What a line came to beside the registers: the number of its refusal, if it is refused, how many bytes of the reply space
/// are its reply, and the blocks worked.
// The number stays a byte: it is what `replies::refuse`, which docs/TRACE.md names, was given, and that answers for every byte.
#[derive(Clone, Copy, Debug, PartialEq, Eq, Default)]
pub struct Replied {
    pub refused: Option<u8>,
    pub length: usize,
    pub blocks: u64,
}

/// What a line came to: the registers after it, and what else.
#[derive(Clone, Copy)]
pub struct Answered {
    pub registers: Registers,
    pub reply: Replied,
}

/// The number of a refusal by the reader, or 0: what is no frame reaches the arm of `let .. else` as the reader's whole answer (§10.1.3).
#[tactic(auto, unfolding(crate::specs::Work::refusal_in))]
fn number(got: Result<Frame, Refusal>) -> u8
    ensures { result ≡ refusal_in (read_told got) }
{
    got.err().map_or(0, |refusal| refusal.number())
}

/// A line that has room for its reply. The reader's answer is taken apart by `let .. else` (§10.1.3).
#[tactic(auto, using(crate::proofs::Laws::line_refused, crate::proofs::Laws::taken, crate::proofs::Laws::read_short, crate::proofs::Laws::read_answered), unfolding(crate::specs::Work::refusal_in))]
fn answer_line(r: Registers, line: &[u8]) -> Outcome
    ensures { result ≡ outcome_of (answer_to sha256 r line.now reply_room) }
{
    let mut frame = [0u8; LONGEST_FRAME];
    let got = lines::read_line(line, &mut frame);
    let Ok(found) = got else {
        return replies::refuse(r, number(got), 0);
    };
    kernel::answer_fitting(r, &frame[..found.length])
}

/// One line, whatever it holds, on registers by value: the reply's line goes over the front of the reply space.
pub fn answer(r: Registers, line: &[u8], reply: &mut [u8]) -> Answered
    ensures { Promised r line.now reply.old result reply.new }
{
    if reply.len() < REPLY_ROOM {
        return Answered {
            registers: r,
            reply: Replied {
                refused: Some(Refusal::Room.number()),
                ..Replied::default()
            },
        };
    }
    let o = answer_line(r, line);
    let length = lines::write_reply(o.reply.as_slice(), reply).unwrap_or(0);
    Answered {
        registers: o.registers,
        reply: Replied {
            refused: o.refused,
            length,
            blocks: o.blocks,
        },
    }
}

/// One line on registers where they lie: the answer by value, and what it gave stored (§2.2.1).
pub fn answer_here(regs: &mut Registers, line: &[u8], reply: &mut [u8]) -> Replied
    ensures { Promised regs.old line.now reply.old
        (answered_with regs.new result) reply.new }
{
    let a = answer(*regs, line, reply);
    *regs = a.registers;
    a.reply
}
