//! A request's checks, made one after the other at a desk. A kind's function reads as its row of the table: a line for each check,
//! in the row's order, each left by `?` where it fails, and the answer at the end; `outcome` makes a reply of either.
#![tactic(auto)]

ghost use Rattle.std.specs.Prelude.{◌≡◌, ◌≤◌, [], ◌∷◌};
ghost use Rattle.seqs.specs.Choose.{opposite};
ghost use Rattle.seqs.specs.Bytes.{same};
ghost use Rattle.sha256.specs.Hash.{sha256};
ghost use Rattle.paper.specs.Numbers.{kind_number};
ghost use Rattle.paper.specs.Strings.{cost, digest_of, memorandum, memorandum_forms};
ghost use Rattle.paper.specs.Refusals.{none_fits, tried, leaf_of, leaf_forms};
ghost use Rattle.digests.specs.Speaking.{memo_of};
ghost use Rattle.checks.specs.Steps.{begun, blocks_more, held, outcome_at};

use digests::Memo;
use paper::{Item, Kind, Record, Refusal, Registers};
use replies::Outcome;

/// The registers that a request is judged on, and the blocks worked for it so far. They are counted modulo 2^64: no request comes
/// near that, and so no sum here asks anything of its caller.
#[derive(Clone, Copy)]
pub struct Desk {
    pub registers: Registers,
    pub blocks: u64,
}

impl Desk {
    /// No check made.
    pub fn new(registers: Registers) -> Self
        ensures { result ≡ begun registers }
    {
        Desk {
            registers,
            blocks: 0,
        }
    }

    /// A check that forms no string.
    pub fn check<E: Drop>(&self, holds: bool, refusal: E) -> Result<(), E>
        ensures { result ≡ held holds refusal }
    {
        if holds { Ok(()) } else { Err(refusal) }
    }

    /// 13, the first check of every kind but open.
    pub fn is_open(&self) -> Result<(), Refusal>
        ensures { result ≡ held self.now.registers.opened Refusal.Unopened }
    {
        self.check(self.registers.opened, Refusal::Unopened)
    }

    /// 10: y is the root that the module holds.
    pub fn is_root(&self, y: [u8; 32]) -> Result<(), Refusal>
        ensures { result ≡ held (same y self.now.registers.root) Refusal.Stale }
    {
        self.check(fields::same_digest(y, self.registers.root), Refusal::Stale)
    }

    /// Blocks worked for the check that follows, or for the answer.
    pub fn work(&mut self, blocks: u64)
        ensures { self.new ≡ blocks_more self.old blocks }
    {
        self.blocks = self.blocks.wrapping_add(blocks);
    }

    /// The memorandum of what is said, worked.
    pub fn issue(&mut self, says: Memo) -> [u8; 32]
        ensures is { result ≡ memorandum sha256 (memo_of says) self.old.registers.secret }
        ensures counted { self.new ≡ blocks_more self.old (cost (memorandum_forms sha256 (memo_of says) self.old.registers.secret)) }
    {
        let due = says.made(self.registers.secret);
        self.work(due.blocks);
        due.bytes
    }

    /// 8 or 9: m is the memorandum of what is said.
    pub fn fits<E: Drop>(&mut self, says: Memo, m: [u8; 32], refusal: E) -> Result<(), E>
        ensures is { result ≡ held (same (memorandum sha256 (memo_of says) self.old.registers.secret) m) refusal }
        ensures counted { self.new ≡ blocks_more self.old (cost (memorandum_forms sha256 (memo_of says) self.old.registers.secret)) }
    {
        let due = self.issue(says);
        self.check(fields::same_digest(due, m), refusal)
    }

    /// 8 of a memorandum that may say one of two things: the second is tried where the first does not fit.
    pub fn fits_either<E: Drop>(
        &mut self,
        first: Memo,
        second: Memo,
        m: [u8; 32],
        refusal: E,
    ) -> Result<(), E>
        ensures is { result ≡ held (opposite (none_fits sha256 self.old.registers.secret (memo_of first ∷ memo_of second ∷ []) m)) refusal }
        ensures counted { self.new ≡ blocks_more self.old (cost (tried sha256 self.old.registers.secret (memo_of first ∷ memo_of second ∷ []) m)) }
    {
        if self.fits(first, m, ()).is_ok() {
            return Ok(());
        }
        self.fits(second, m, refusal)
    }

    /// The leaf of an item, the next one and a record, worked for the check that follows.
    #[tactic(auto, using(crate::proofs::Steps::few_leaf))]
    pub fn leaf(&mut self, item: Item, next: Item, rec: Record) -> [u8; 32]
        ensures is { result ≡ digest_of sha256 (leaf_of sha256 item.0 next.0 rec) }
        ensures counted { self.new ≡ blocks_more self.old (cost (leaf_forms sha256 item.0 next.0 rec)) }
        ensures few { cost (leaf_forms sha256 item.0 next.0 rec) ≤ 2 }
    {
        let leaf = digests::leaf_of(item, next, rec);
        self.work(leaf.blocks);
        leaf.bytes
    }

    /// What the request leaves of the registers.
    pub fn leave(&mut self, registers: Registers)
        ensures { self.new ≡ record { registers = registers; blocks = self.old.blocks } }
    {
        self.registers = registers;
    }

    /// The outcome of a request of a kind: refused by the check that failed, or answered with what is listed.
    pub fn outcome<const N: usize>(&self, kind: Kind, answer: Result<[u8; N], Refusal>) -> Outcome
        ensures { result ≡ outcome_at (kind_number kind) answer.entry self.now }
    {
        match answer {
            Ok(lists) => replies::accept(self.registers, 0x80 + kind.number(), &lists, self.blocks),
            Err(refusal) => replies::refuse(self.registers, refusal.number(), self.blocks),
        }
    }
}
