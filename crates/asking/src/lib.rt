//! The line that the tablet sends at each step of a wish, made of the wish's plan, the memoranda of the last two replies and the nodes
//! in memory, which are only looked at.
#![tactic(auto)]

ghost use Rattle.std.specs.Prelude.{◌≡◌, ◌≤◌, ◌++◌, length};
ghost use Rattle.seqs.specs.Over.{written};
ghost use Rattle.runs.specs.Frames.{frame_of};
ghost use Rattle.asking.specs.Parts.{parts_of, part_at};
ghost use Rattle.asking.specs.Saying.{start_of, turns_round, sent, sent_change, slot_node, few, request_as, line_at, fitting_length};

use edits::{Change, Edit};
use frames::Frame;
use plans::{Plan, Script};
use slots::{LEVELS, SLOTS};

mod frames;

/// What is kept between the lines of a wish: its plan, how many of its lines were answered, and the memoranda of the last two replies.
// The step stays a byte: docs/TRACE.md names `line` and `part_at`, and they answer for every byte.
#[derive(Clone, Copy)]
pub struct Talk {
    pub plan: Plan,
    pub step: u8,
    pub older: [u8; 32],
    pub memo: [u8; 32],
}

/// A line of a wish: the path of one leaf; of two leaves the paths to the halves of the lowest node above both, their pair, the path
/// above that node, and both raised to the root; the leaves exchanged, an item taken out, or the first one listed; a memorandum turned
/// round; a root adopted; a record set, or cleared; a leaf witnessed, asked about; a question where nothing is listed; and none.
#[derive(Clone, Copy)]
pub enum Part {
    PathWhole,
    PathLeft,
    PathRight,
    PairUp,
    PathAbove,
    RaiseUp,
    SwapThem,
    PlaceIt,
    FirstOf,
    TurnIt,
    AdoptIt,
    SetIt,
    ClearIt,
    WitnessIt,
    AskLeaf,
    AskNone,
    Over,
}

/// A talk before its first line.
pub fn start(plan: Plan) -> Talk
    ensures { result ≡ start_of plan }
{
    Talk {
        plan,
        step: 0,
        older: [0; 32],
        memo: [0; 32],
    }
}

// ── which line ──

/// The five lines that lead up to the memorandum of two leaves.
const FORK: [Part; 5] = [
    Part::PathLeft,
    Part::PathRight,
    Part::PairUp,
    Part::PathAbove,
    Part::RaiseUp,
];

/// The lines of a script, one after the other: those of a fork, and those behind them.
fn parts_of(script: Script) -> (&'static [Part], &'static [Part])
    ensures { result.0.now ++ result.1.now ≡ parts_of script }
{
    match script {
        Script::AskOfNone => (&[], &[Part::AskNone]),
        Script::Asking => (&[], &[Part::PathWhole, Part::WitnessIt, Part::AskLeaf]),
        Script::Setting => (&[], &[Part::PathWhole, Part::SetIt]),
        Script::Clearing => (&[], &[Part::PathWhole, Part::ClearIt]),
        Script::Beginning => (&[], &[Part::FirstOf, Part::AdoptIt]),
        Script::Inserting => (&FORK, &[Part::PlaceIt, Part::TurnIt, Part::AdoptIt]),
        Script::Swapping => (&FORK, &[Part::SwapThem, Part::AdoptIt]),
        Script::Dropping => (&FORK, &[Part::PlaceIt, Part::AdoptIt]),
        Script::Emptying => (&[], &[Part::FirstOf, Part::TurnIt, Part::AdoptIt]),
    }
}

/// The line at a step of a script.
pub fn part_at(script: Script, step: u8) -> Part
    ensures { result ≡ part_at script step }
{
    let (fork, own) = parts_of(script);
    let step = step as usize;
    if step < fork.len() {
        fork[step]
    } else {
        own.get(step - fork.len()).copied().unwrap_or(Part::Over)
    }
}

// ── edits as they are sent, and places in the tree ──

fn turns_round(script: Script) -> bool
    ensures { result ≡ turns_round script }
{
    matches!(script, Script::Inserting)
}

/// An edit as the script sends it.
pub fn sent_edit(script: Script, e: Edit) -> Edit
    ensures { result ≡ sent script e }
{
    if turns_round(script) {
        let Edit { was, becomes } = e;
        return Edit {
            was: becomes,
            becomes: was,
        };
    }
    e
}

fn sent_change(script: Script, e: Change) -> Change
    ensures { result ≡ sent_change script e }
{
    Change {
        a: sent_edit(script, e.a),
        b: sent_edit(script, e.b),
        y: sent_edit(script, e.y),
        z: sent_edit(script, e.z),
        node: sent_edit(script, e.node),
        root: sent_edit(script, e.root),
        ..e
    }
}

fn slot_node(i: usize) -> usize
    ensures { result ≡ slot_node i }
{
    SLOTS + i % SLOTS
}

#[tactic(auto, unfolding(crate::specs::Saying::few))]
fn few_levels(n: usize) -> usize
    ensures { (result ≡ few n) × (result ≤ 9) }
{
    n.min(9)
}

// ── lines ──

/// The frame of a line; where there is none, that of a question.
fn frame_of(part: Part, t: Talk, nodes: &[u8]) -> Frame
    ensures { result ≡ frame_of (request_as nodes.now t part) }
{
    let Talk {
        plan,
        older,
        memo,
        ..
    } = t;
    let Plan {
        script,
        item,
        next,
        hash,
        values,
        here,
        change,
        ..
    } = plan;
    let sent = sent_change(script, change);
    let (left, right) = (slot_node(change.left), slot_node(change.right));
    let levels = few_levels(change.levels);
    match part {
        Part::PathWhole => frames::path(nodes, left, LEVELS, sent.a),
        Part::PathLeft => frames::path(nodes, left, levels, sent.a),
        Part::PathRight => frames::path(nodes, right, levels, sent.b),
        Part::PairUp => frames::pair(sent.a, sent.y, older, sent.b, sent.z, memo),
        Part::PathAbove => frames::path(
            nodes,
            edits::ancestor_of(levels + 1, left),
            LEVELS - 1 - levels,
            sent.node,
        ),
        Part::RaiseUp => frames::raise(sent.a, sent.b, sent.node, older, sent.root, memo),
        Part::SwapThem => frames::swap(change.a, change.b, change.root, memo),
        Part::PlaceIt => frames::place(here.item, item, next, hash, sent.root, memo),
        Part::FirstOf => frames::first(item),
        Part::TurnIt => frames::turn(change.root, memo),
        Part::AdoptIt => frames::adopt(change.root, memo),
        Part::SetIt => frames::set(item, here.next, here.entry, values, change.root, memo),
        Part::ClearIt => frames::clear(item, here.next, here.entry, change.root, memo),
        Part::WitnessIt => frames::witness(change.a, change.root, memo),
        Part::AskLeaf => frames::ask(item, here.item, here.next, here.entry, change.root, memo),
        Part::AskNone | Part::Over => frames::ask_none(item),
    }
}

/// The line at the talk's step, with its 0A, over the front of the space: its length; or none and nothing written where it does not fit.
pub fn line(t: Talk, nodes: &[u8], out: &mut [u8]) -> Option<usize>
    ensures value { result ≡ fitting_length (line_at nodes.now t) (length out.old) }
    ensures out_after { out.new ≡ written (line_at nodes.now t) out.old }
{
    let frame = frame_of(part_at(t.plan.script, t.step), t, nodes);
    let bytes = frame.as_slice();
    if hexadecimal::write(bytes, out) {
        Some(2 * bytes.len() + 1)
    } else {
        None
    }
}
