//! What a request comes to: its refusal or answer, as values.
#![tactic(auto)]

ghost use Rattle.std.specs.Prelude.{◌≡◌, ◌≤◌, [], ◌∷◌, length};
ghost use Rattle.replies.specs.Replies.{room};
ghost use Rattle.replies.specs.Outcomes.{listed, refusal, acceptance};

use paper::Registers;
use std::marker::Model;

/// The most bytes of a reply: its first, and the 96 that the longest answer lists.
const ROOM: usize = 97;

/// The bytes of a reply, over zero bytes.
#[derive(Clone, Copy)]
pub struct Reply {
    bytes: [u8; ROOM],
    length: usize,
}

impl Model for Reply {
    ghost use Rattle.std.specs.Prelude.{List, ℕ, take};

    ghost Value = { List ℕ };

    ghost use Rattle.replies.specs.Replies.{over_zeros, Within, over_zeros_again};

    ghost view = { λ r. take r.length r.bytes };

    ghost invariant = { Within };

    ghost inverse = { over_zeros };

    ghost inverse_ok = { over_zeros_again };
}

impl Reply {
    /// A reply of one byte.
    fn of(first: u8) -> Self
        ensures { result ≡ first ∷ [] }
    {
        let mut bytes = [0; ROOM];
        bytes[0] = first;
        Reply { bytes, length: 1 }
    }

    /// These bytes behind those that are there, or nothing where they do not fit.
    fn list(&mut self, more: &[u8])
        ensures { self.new ≡ listed self.old more.now }
    {
        if more.len() <= ROOM - self.length {
            fields::put(&mut self.bytes, self.length, more);
            self.length += more.len();
        }
    }

    /// The bytes that the reply is.
    pub fn as_slice(&self) -> &[u8]
        ensures is { result.now ≡ self.now }
        ensures short { length self.now ≤ room }
    {
        &self.bytes[..self.length]
    }
}

/// The registers after a request, its reply, the number of its refusal, if it is one, and the blocks worked.
#[derive(Clone, Copy)]
pub struct Outcome {
    pub registers: Registers,
    pub reply: Reply,
    pub refused: Option<u8>,
    pub blocks: u64,
}

/// A refusal: 00 and its number; the registers stay as they were.
// The number stays a byte: docs/TRACE.md names the function, and it answers for every byte.
#[tactic(auto, unfolding(crate::specs::Outcomes::listed))]
pub fn refuse(registers: Registers, number: u8, blocks: u64) -> Outcome
    ensures { result ≡ refusal registers number blocks }
{
    let mut reply = Reply::of(0);
    reply.list(&[number]);
    Outcome {
        registers,
        reply,
        refused: Some(number),
        blocks,
    }
}

/// An answer: its first byte, the kind plus 80 hexadecimal, and what the table lists, or nothing where that does not fit.
// The first byte stays a byte, too.
pub fn accept(registers: Registers, first: u8, lists: &[u8], blocks: u64) -> Outcome
    ensures { result ≡ acceptance registers first lists.now blocks }
{
    let mut reply = Reply::of(first);
    reply.list(lists);
    Outcome {
        registers,
        reply,
        refused: None,
        blocks,
    }
}
