//! The keeper's turns: a line comes, a wish in words or the module's reply, and one line goes out, for the module or for people. All
//! that the keeper does is here but for input, output and the disk.
#![tactic(auto)]

ghost use Rattle.std.specs.Prelude.{◌≡◌, []};
ghost use Rattle.sha256.specs.Hash.{sha256};
ghost use Rattle.plans.specs.Plans.{asked};
ghost use Rattle.turns.specs.Turns.{at_rest, finished_of, telling, sending, on_begun, on_word, on_heard, turn_of, leaves_after, nodes_after};
ghost use Rattle.turns.specs.Saying.{SaidAs};

use asking::Talk;
use hearing::{End, Heard};
use paper::{Item, Kilograms, Millimetres, Revision, Rigging, Values};
use plans::{After, Plan, Script};
use rows::Row;
use wishes::Wish;
use words::{Telling, Word};

/// How a talk stands: a reply is awaited in it, or it is over.
#[derive(Clone, Copy)]
pub enum Standing {
    Awaiting(Talk),
    Over(Talk),
}

/// What is kept between two lines: how many leaves memory holds, the counter that the module gave last, and the last talk, in which a
/// reply is awaited or which is over.
#[derive(Clone, Copy)]
pub struct Desk {
    pub count: usize,
    pub counter: Revision,
    pub talk: Standing,
}

// Leaves, nodes and output stay apart: docs/TRACE.md names `answer`, which answers for any of each. `changed` has no value beside it that
// it speaks of.

/// What a line led to: the desk, whether memory changed, and how many bytes of the output are the line that goes out, where it fits.
#[derive(Clone, Copy)]
pub struct Turn {
    pub desk: Desk,
    pub changed: bool,
    pub length: Option<usize>,
}

/// What people are told at the end of a wish.
fn finished(p: Plan) -> Telling
    ensures { result ≡ finished_of p }
{
    match p.script {
        Script::AskOfNone => Telling::NoItem(p.item),
        Script::Asking => Telling::Found(records::finding(
            p.item,
            p.here.item,
            p.here.next,
            p.here.entry,
        )),
        Script::Setting
        | Script::Clearing
        | Script::Beginning
        | Script::Inserting
        | Script::Swapping
        | Script::Dropping
        | Script::Emptying => Telling::Done,
    }
}

// ── a line that goes out ──

/// To people.
fn tell(d: Desk, changed: bool, t: Telling, out: &mut [u8]) -> Turn
    ensures { SaidAs (telling d changed t) result out.old out.new }
{
    let text = words::tell(t);
    let bytes = text.as_slice();
    let length = (bytes.len() <= out.len()).then_some(bytes.len());
    fields::put(out, 0, bytes);
    Turn {
        desk: d,
        changed,
        length,
    }
}

/// To the module, whose reply is then awaited.
fn send(
    count: usize,
    counter: Revision,
    talk: Talk,
    changed: bool,
    nodes: &[u8],
    out: &mut [u8],
) -> Turn
    ensures { SaidAs (sending count counter talk changed nodes.now) result out.old out.new }
{
    Turn {
        desk: Desk {
            count,
            counter,
            talk: Standing::Awaiting(talk),
        },
        changed,
        length: asking::line(talk, nodes, out),
    }
}

// ── a line that comes ──

#[tactic(auto, unfolding(crate::specs::Turns::on_begun))]
fn begin(d: Desk, w: Wish, leaves: &[u64], nodes: &[u8], out: &mut [u8]) -> Turn
    ensures { SaidAs (on_begun sha256 d leaves.now nodes.now w) result out.old out.new }
{
    match plans::begin(w, d.count, d.counter, leaves, nodes) {
        Ok(plan) => send(d.count, d.counter, asking::start(plan), false, nodes, out),
        Err(refused) => tell(d, false, Telling::Refused(refused.number()), out),
    }
}

fn ask(d: Desk, line: &[u8], leaves: &[u64], nodes: &[u8], out: &mut [u8]) -> Turn
    ensures { SaidAs (on_word sha256 d line.now leaves.now nodes.now) result out.old
        out.new }
{
    match words::read(line) {
        Some(Word::Wish(w)) => begin(d, w, leaves, nodes, out),
        Some(Word::Counter(counter)) => tell(Desk { counter, ..d }, false, Telling::Done, out),
        None => tell(d, false, Telling::What, out),
    }
}

fn hear(h: Heard, nodes: &[u8], out: &mut [u8]) -> Turn
    ensures { SaidAs (on_heard h nodes.now) result out.old out.new }
{
    let Heard {
        end,
        changed,
        count,
        counter,
        talk,
    } = h;
    let rest = Desk {
        count,
        counter,
        talk: Standing::Over(talk),
    };
    match end {
        End::GoesOn => send(count, counter, talk, changed, nodes, out),
        End::Done => tell(rest, changed, finished(talk.plan), out),
        End::Refused(refusal) => tell(rest, changed, Telling::ModuleRefused(refusal.number()), out),
        End::Otherwise => tell(rest, changed, Telling::Otherwise, out),
    }
}

// ── the start ──

/// A question where nothing is listed, with the counter at 0.
#[tactic(auto, unfolding(plans::specs::Plans::asked, plans::specs::Plans::plain_plan))]
fn ask_of_none(item: Item) -> Plan
    ensures { result ≡ asked [] [] 0 (record { 0 = 0 }) item }
{
    let row = Row {
        item: Item(0),
        next: Item(0),
        entry: records::EMPTY,
    };
    let counter = Revision(0);
    Plan {
        script: Script::AskOfNone,
        item,
        values: Values {
            mass: Kilograms(0),
            offset: Millimetres(0),
            rigging: Rigging(0),
        },
        here: row,
        next: Item(0),
        hash: [0; 32],
        change: edits::no_place(0),
        after: After {
            left: row,
            right: row,
            count: 0,
            counter,
        },
    }
}

/// The keeper as it starts, with so many leaves in memory: no reply is awaited, and the counter is 0. The talk that is over is the one
/// of a question on item 0, which nobody asked.
#[tactic(auto, unfolding(crate::specs::Turns::at_rest, plans::specs::Plans::asked))]
pub fn start(count: usize) -> Desk
    ensures { result ≡ at_rest count }
{
    Desk {
        count,
        counter: Revision(0),
        talk: Standing::Over(asking::start(ask_of_none(Item(0)))),
    }
}

// ── a turn ──

/// One turn: the line that came, without its 0A; memory, which changes only where the module has accepted; and the line that goes
/// out, with its 0A, over the front of the output, or nothing where it does not fit. No line is longer than 789 bytes.
#[tactic(auto, unfolding(crate::specs::Turns::turn_of, crate::specs::Turns::leaves_after, crate::specs::Turns::nodes_after))]
pub fn answer(d: Desk, line: &[u8], leaves: &mut [u64], nodes: &mut [u8], out: &mut [u8]) -> Turn
    ensures said_as { SaidAs (turn_of sha256 d line.now leaves.old nodes.old) result out.old
        out.new }
    ensures leaves_after { leaves.new ≡ leaves_after d line.now leaves.old }
    ensures nodes_after { nodes.new ≡ nodes_after sha256 d line.now nodes.old }
{
    match d.talk {
        Standing::Awaiting(talk) => {
            let heard = hearing::hear(talk, d.count, d.counter, line, leaves, nodes);
            hear(heard, nodes, out)
        }
        Standing::Over(_) => ask(d, line, leaves, nodes, out),
    }
}
