//! What a reply leads to. The tablet knows every byte of a reply but a memorandum; only where all of them are there does the wish go
//! on, and only where they answer a line that commits does memory change.
#![tactic(auto)]

ghost use Rattle.std.specs.Prelude.{◌≡◌, [], ◌∷◌, ◌+◌, ◌≤◌, length, take};
ghost use Rattle.seqs.specs.Choose.{pick};
ghost use Rattle.seqs.specs.Bytes.{same};
ghost use Rattle.sha256.specs.Hash.{sha256};
ghost use Rattle.hexadecimal.specs.Hex.{bytes_of};
ghost use Rattle.paper.specs.Answers.{finding_bytes};
ghost use Rattle.paper.specs.Numbers.{kind_number};
ghost use Rattle.hearing.specs.Awaiting.{memo_reply, path_reply, awaited_as, is_line, fits_reply, replies, is_refusal, refusal_in};
ghost use Rattle.hearing.specs.Hearing.{committing, concluding, of_two, is_swap, committed_leaves, committed_nodes, next_step, last_digest, gone_on, not_awaited, answered_by, committed_talk, leaves_heard, nodes_heard, heard_from};
ghost use Rattle.hearing.specs.Knowing.{known_of};

use asking::{Part, Talk};
use buffers::Buffer;
use edits::Edit;
use paper::{Finding, Kind, Refusal, Revision};
use plans::{Plan, Script};

/// How the wish stands after a reply: it goes on, is done, was refused by the module, or got something else.
#[derive(Clone, Copy)]
pub enum End {
    GoesOn,
    Done,
    Refused(Refusal),
    Otherwise,
}

// Leaves and nodes, their count and the counter stay apart: docs/TRACE.md names `hear`, which answers for all of them whatever they are.
// `changed` has no value beside it that it speaks of.

/// What a reply led to: how the wish stands; whether memory changed; how many leaves it holds, and the counter; and what is kept for
/// the next line.
#[derive(Clone, Copy)]
pub struct Heard {
    pub end: End,
    pub changed: bool,
    pub count: usize,
    pub counter: Revision,
    pub talk: Talk,
}

/// The bytes of a reply that are known, and whether a memorandum follows.
// A flag, as nothing is known of the memorandum that an Option could hold.
#[derive(Drop)]
struct Known {
    bytes: Buffer<65>,
    memo: bool,
}

// ── what is awaited ──

/// The first byte of what answers a line of a kind.
#[tactic(auto, using(crate::proofs::Fronts::few_kinds))]
fn accepted(kind: Kind) -> Buffer<65>
    ensures { result ≡ (0x80 + kind_number kind) ∷ [] }
{
    Buffer::new().with(&[0x80 + kind.number()])
}

/// A memorandum.
fn memo_reply(kind: Kind) -> Known
    ensures { known_of result ≡ memo_reply (0x80 + kind_number kind) }
{
    Known {
        bytes: accepted(kind),
        memo: true,
    }
}

/// What stands above a path, before and afterwards, and a memorandum of both.
fn path_reply(e: Edit) -> Known
    ensures { known_of result ≡ path_reply e }
{
    Known {
        bytes: accepted(Kind::Path).with(&e.was).with(&e.becomes),
        memo: true,
    }
}

/// A finding.
fn found(finding: Finding) -> Buffer<65>
    ensures { result ≡ 0x8e ∷ finding_bytes finding }
{
    let reply = accepted(Kind::Ask);
    match finding {
        Finding::Recorded(a, r) => reply
            .with(&[1])
            .with(&fields::spelled(a.0))
            .with(&records::record_bytes(r)),
        Finding::Listed(a) => reply.with(&[2]).with(&fields::spelled(a.0)),
        Finding::Gap(a, b) => reply
            .with(&[3])
            .with(&fields::spelled(a.0))
            .with(&fields::spelled(b.0)),
    }
}

/// What is awaited for a line.
fn awaited(part: Part, t: Talk) -> Known
    ensures { known_of result ≡ awaited_as t part }
{
    let Plan {
        script,
        item,
        here,
        change,
        after,
        ..
    } = t.plan;
    match part {
        Part::PathWhole | Part::PathAbove => path_reply(asking::sent_edit(script, change.root)),
        Part::PathLeft => path_reply(asking::sent_edit(script, change.y)),
        Part::PathRight => path_reply(asking::sent_edit(script, change.z)),
        Part::PairUp => memo_reply(Kind::Pair),
        Part::RaiseUp => memo_reply(Kind::Raise),
        Part::SwapThem => memo_reply(Kind::Swap),
        Part::PlaceIt => memo_reply(Kind::Place),
        Part::FirstOf => memo_reply(Kind::First),
        Part::TurnIt => memo_reply(Kind::Turn),
        Part::WitnessIt => memo_reply(Kind::Witness),
        Part::AdoptIt => Known {
            bytes: accepted(Kind::Adopt).with(&change.root.becomes),
            memo: false,
        },
        Part::SetIt => Known {
            bytes: accepted(Kind::Set)
                .with(&change.root.becomes)
                .with(&fields::spelled(after.counter.0)),
            memo: false,
        },
        Part::ClearIt => Known {
            bytes: accepted(Kind::Clear)
                .with(&change.root.becomes)
                .with(&fields::spelled(after.counter.0)),
            memo: false,
        },
        Part::AskLeaf => Known {
            bytes: found(records::finding(item, here.item, here.next, here.entry)),
            memo: false,
        },
        Part::AskNone | Part::Over => Known {
            bytes: accepted(Kind::AskNone).with(&fields::spelled(item.0)),
            memo: false,
        },
    }
}

// ── a reply beside it ──

/// Whether the bytes that are known stand at the reply's front.
fn same_front(known: &[u8], reply: &[u8]) -> bool
    requires { length known.now ≤ length (bytes_of reply.now) }
    ensures { result ≡ same (take (length known.now) (bytes_of reply.now)) known.now }
{
    for (i, &byte) in known.iter().enumerate() {
        if hexadecimal::byte_at(reply, i) != byte {
            return false;
        }
    }
    true
}

fn is_line(reply: &[u8]) -> bool
    ensures { result ≡ is_line reply.now }
{
    reply.len() % 2 == 0 && hexadecimal::all_digits(reply)
}

/// How many bytes the reply has.
fn length_of(k: &Known) -> usize
    ensures { result ≡ length k.now.bytes + pick k.now.memo 32 0 }
{
    let known = k.bytes.as_slice().len();
    if k.memo { known + 32 } else { known }
}

/// Whether a line's bytes are those that are awaited.
#[tactic(auto, using(hexadecimal::proofs::Laws::bytes_length), unfolding(crate::specs::Awaiting::fits_reply))]
fn stands_in(k: &Known, reply: &[u8]) -> bool
    ensures { result ≡ fits_reply (known_of k.now) (bytes_of reply.now) }
{
    reply.len() / 2 == length_of(k) && same_front(k.bytes.as_slice(), reply)
}

#[tactic(auto, unfolding(crate::specs::Awaiting::replies))]
fn fits(k: &Known, reply: &[u8]) -> bool
    ensures { result ≡ replies (known_of k.now) reply.now }
{
    is_line(reply) && stands_in(k, reply)
}

/// Whether it is a line of two bytes, the first of them 0.
#[tactic(auto, using(hexadecimal::proofs::Laws::bytes_length))]
fn is_refusal(reply: &[u8]) -> bool
    ensures { result ≡ is_refusal reply.now }
{
    is_line(reply) && reply.len() / 2 == 2 && hexadecimal::byte_at(reply, 0) == 0
}

/// The refusal that a line is.
#[tactic(auto, using(crate::proofs::Fronts::refusal_listed), unfolding(crate::specs::Awaiting::refusal_in))]
fn refusal_in(reply: &[u8]) -> Option<Refusal>
    ensures { result ≡ refusal_in reply.now }
{
    if !is_refusal(reply) {
        return None;
    }
    Refusal::try_from(hexadecimal::byte_at(reply, 1)).ok()
}

/// The memorandum at a reply's end: its last 32 bytes.
fn memo_in(reply: &[u8]) -> [u8; 32]
    ensures { result ≡ last_digest (bytes_of reply.now) }
{
    let at = (reply.len() / 2).saturating_sub(32);
    let mut out = [0; 32];
    for i in 0..32 {
        out[i] = hexadecimal::byte_at(reply, at + i);
    }
    out
}

// ── which lines change memory, and which are the last ──

fn commits(part: Part) -> bool
    ensures { result ≡ committing part }
{
    matches!(part, Part::AdoptIt | Part::SetIt | Part::ClearIt)
}

fn concludes(part: Part) -> bool
    ensures { result ≡ concluding part }
{
    matches!(part, Part::AskLeaf | Part::AskNone | Part::Over)
}

fn of_two(script: Script) -> bool
    ensures { result ≡ of_two script }
{
    matches!(
        script,
        Script::Inserting | Script::Swapping | Script::Dropping
    )
}

fn is_swap(script: Script) -> bool
    ensures { result ≡ is_swap script }
{
    matches!(script, Script::Swapping)
}

// ── memory ──

#[tactic(auto, unfolding(crate::specs::Hearing::committed_leaves))]
fn commit_leaves(p: Plan, leaves: &mut [u64])
    ensures { leaves.new ≡ committed_leaves p leaves.old }
{
    rows::put_row(leaves, p.change.left, p.after.left);
    if of_two(p.script) {
        rows::put_row(leaves, p.change.right, p.after.right);
    }
}

#[tactic(auto, unfolding(crate::specs::Hearing::committed_nodes))]
fn commit_nodes(p: Plan, nodes: &mut [u8])
    ensures { nodes.new ≡ committed_nodes sha256 p nodes.old }
{
    slots::put_leaf(nodes, p.change.left, p.change.a.becomes);
    if of_two(p.script) {
        slots::put_leaf(nodes, p.change.right, p.change.b.becomes);
    }
}

// ── what is heard ──

#[tactic(auto, unfolding(crate::specs::Hearing::not_awaited))]
fn not_awaited(t: Talk, count: usize, counter: Revision, reply: &[u8]) -> Heard
    ensures { result ≡ not_awaited t count counter reply.now }
{
    let end = match refusal_in(reply) {
        Some(refusal) => End::Refused(refusal),
        None => End::Otherwise,
    };
    Heard {
        end,
        changed: false,
        count,
        counter,
        talk: t,
    }
}

/// Once memory has changed: a remove goes on behind its swap.
#[tactic(auto, unfolding(crate::specs::Hearing::committed_talk))]
fn committed(t: Talk, leaves: &[u64], nodes: &[u8]) -> Heard
    ensures { result ≡ committed_talk sha256 t leaves.now nodes.now }
{
    let Plan {
        script,
        item,
        after,
        ..
    } = t.plan;
    let (count, counter) = (after.count, after.counter);
    if is_swap(script) {
        return Heard {
            end: End::GoesOn,
            changed: true,
            count,
            counter,
            talk: asking::start(plans::drop_plan(item, count, counter, leaves, nodes)),
        };
    }
    Heard {
        end: End::Done,
        changed: true,
        count,
        counter,
        talk: t,
    }
}

#[tactic(auto, unfolding(crate::specs::Hearing::next_step))]
fn next_step(n: u8) -> u8
    ensures { result ≡ next_step n }
{
    n.saturating_add(1)
}

fn gone_on(t: Talk, reply: &[u8]) -> Talk
    ensures { result ≡ gone_on t (bytes_of reply.now) }
{
    let older = t.memo;
    let memo = memo_in(reply);
    Talk {
        step: next_step(t.step),
        older,
        memo,
        ..t
    }
}

/// A reply that is as awaited, to a line that does not commit.
#[tactic(auto, unfolding(crate::specs::Hearing::answered_by))]
fn answered(part: Part, t: Talk, count: usize, counter: Revision, reply: &[u8]) -> Heard
    ensures { result ≡ answered_by part t count counter reply.now }
{
    if concludes(part) {
        return Heard {
            end: End::Done,
            changed: false,
            count,
            counter,
            talk: t,
        };
    }
    Heard {
        end: End::GoesOn,
        changed: false,
        count,
        counter,
        talk: gone_on(t, reply),
    }
}

/// What a reply line, given without its 0A, leads to; memory changes where it accepts a line that commits.
pub fn hear(
    t: Talk,
    count: usize,
    counter: Revision,
    reply: &[u8],
    leaves: &mut [u64],
    nodes: &mut [u8],
) -> Heard
    ensures value { result ≡ heard_from sha256 t count counter reply.now leaves.old nodes.old }
    ensures leaves_after { leaves.new ≡ leaves_heard t reply.now leaves.old }
    ensures nodes_after { nodes.new ≡ nodes_heard sha256 t reply.now nodes.old }
{
    let part = asking::part_at(t.plan.script, t.step);
    let known = awaited(part, t);
    if !fits(&known, reply) {
        return not_awaited(t, count, counter, reply);
    }
    if !commits(part) {
        return answered(part, t, count, counter, reply);
    }
    commit_leaves(t.plan, leaves);
    commit_nodes(t.plan, nodes);
    committed(t, leaves, nodes)
}
