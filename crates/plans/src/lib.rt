//! What the tablet works out for a wish before its first line goes out: which lines the wish takes, what changes in the tree, and what
//! memory is to hold once the module has accepted. Memory is only looked at here, and of it no more than 1,024 leaves.
#![tactic(auto)]

ghost use Rattle.std.specs.Prelude.{◌≡◌, ◌-◌, ◌≤◌};
ghost use Rattle.sha256.specs.Hash.{sha256};
ghost use Rattle.slots.specs.Nodes.{slot_count};
ghost use Rattle.rows.specs.Rows.{passing, row_at, row_digest, seek};
ghost use Rattle.wishes.specs.Words.{held_of};
ghost use Rattle.plans.specs.Plans.{no_values, raised_counter, record_after, plain_plan, asked, rewritten, beginning, inserting, emptying, swapping, dropping, removing, plan_for, begun_for};

use edits::Change;
use paper::{Item, Kilograms, Millimetres, Record, Revision, Rigging, Values};
use rows::{Row, Search};
use slots::SLOTS;
use wishes::{Refused, Wish};

/// Which lines a wish takes: a question where nothing is listed, any other question; a record set, or cleared; the first item listed,
/// another one; two leaves exchanged, the last leaf taken out; the only item taken out.
#[derive(Clone, Copy, Debug, PartialEq, Eq)]
pub enum Script {
    AskOfNone,
    Asking,
    Setting,
    Clearing,
    Beginning,
    Inserting,
    Swapping,
    Dropping,
    Emptying,
}

/// What memory is to hold once the module has accepted: the leaves in the slots that change, how many leaves there are, and the counter.
#[derive(Clone, Copy)]
pub struct After {
    pub left: Row,
    pub right: Row,
    pub count: usize,
    pub counter: Revision,
}

/// What a wish comes to: its lines; its item, and the values of a set; the leaf that stands in the left slot, the item that it will
/// lead to or that follows the one taken out, and the hash of its record; what changes in the tree; and what memory is to hold.
#[derive(Clone, Copy)]
pub struct Plan {
    pub script: Script,
    pub item: Item,
    pub values: Values,
    pub here: Row,
    pub next: Item,
    pub hash: [u8; 32],
    pub change: Change,
    pub after: After,
}

// ── small values ──

/// A leaf of nothing.
const NO_ROW: Row = Row {
    item: Item(0),
    next: Item(0),
    entry: records::EMPTY,
};

/// No values.
const NO_VALUES: Values = Values {
    mass: Kilograms(0),
    offset: Millimetres(0),
    rigging: Rigging(0),
};

/// The counter once it is raised; at its top it stays.
#[tactic(auto, unfolding(crate::specs::Plans::raised_counter))]
fn raised(c: Revision) -> Revision
    ensures { result ≡ raised_counter c }
{
    Revision(c.0.saturating_add(1))
}

/// The digest of a leaf.
fn row_digest(r: Row) -> [u8; 32]
    ensures { result ≡ row_digest sha256 r }
{
    digests::leaf_of(r.item, r.next, r.entry).bytes
}

/// The record that a set leaves.
fn record_after(c: Revision, v: Values) -> Record
    ensures { result ≡ record_after c v }
{
    Record {
        revision: raised(c),
        mass: v.mass,
        offset: v.offset,
        rigging: v.rigging,
    }
}

/// A plan without values, whose lines have no place.
#[tactic(auto, unfolding(crate::specs::Plans::plain_plan))]
fn plain(script: Script, item: Item, here: Row, change: Change, after: After) -> Plan
    ensures { result ≡ plain_plan script item no_values here change after.left after.right after.count after.counter }
{
    Plan {
        script,
        item,
        values: NO_VALUES,
        here,
        next: Item(0),
        hash: [0; 32],
        change,
        after,
    }
}

// ── plans ──

// `begin` and `drop_plan` take the parts of `Memory` one by one: docs/TRACE.md names them, and they answer for any count.

/// Memory as a wish finds it: its leaves, and how many of them it holds, its nodes, and the counter that the module gave last.
#[derive(Clone, Copy)]
struct Memory<'a> {
    leaves: &'a [u64],
    nodes: &'a [u8],
    count: usize,
    counter: Revision,
    ghost in_slots: { count ≤ slot_count },
}

impl<'a> Memory<'a> {
    /// The place of the first leaf that is what is sought of an item; the place behind them where none is.
    #[tactic(auto, using(rows::proofs::Finding::found_or))]
    fn place(&self, by: Search, a: Item) -> usize
        ensures value { result ≡ seek (passing by a.0) self.now.leaves.now self.now.count 0 }
        ensures in_slots { result ≤ slot_count }
    {
        rows::find(self.leaves, self.count, by, a).unwrap_or(self.count)
    }

    fn row(&self, i: usize) -> Row
        ensures { result ≡ row_at self.now.leaves.now i }
    {
        rows::row_at(self.leaves, i)
    }

    /// The last leaf's place.
    fn last(&self) -> usize
        ensures { result ≡ self.now.count - 1 }
    {
        self.count.saturating_sub(1)
    }

    /// As many leaves as now, and the counter as it is.
    fn after(&self, left: Row, right: Row) -> After
        ensures { result ≡ record { left = left; right = right; count = self.now.count; counter = self.now.counter } }
    {
        After {
            left,
            right,
            count: self.count,
            counter: self.counter,
        }
    }

    /// A question: where nothing is listed, and else by the leaf that tells of it.
    #[tactic(auto, unfolding(crate::specs::Plans::asked, crate::specs::Plans::plain_plan))]
    fn ask(&self, q: Item) -> Plan
        ensures { result ≡ asked self.now.leaves.now self.now.nodes.now self.now.count self.now.counter q }
    {
        if self.count == 0 {
            let change = edits::no_place(0);
            return plain(
                Script::AskOfNone,
                q,
                NO_ROW,
                change,
                self.after(NO_ROW, NO_ROW),
            );
        }
        let i = self.place(Search::Telling, q);
        let here = self.row(i);
        let change = edits::still_place(self.nodes, i);
        plain(Script::Asking, q, here, change, self.after(here, NO_ROW))
    }

    /// Another record for an item's leaf.
    #[tactic(auto, unfolding(crate::specs::Plans::rewritten, crate::specs::Plans::plain_plan))]
    fn rewrite(&self, script: Script, a: Item, values: Values, entry: Record) -> Plan
        ensures { result ≡ rewritten sha256 self.now.leaves.now self.now.nodes.now self.now.count self.now.counter script a values entry }
    {
        let i = self.place(Search::Own, a);
        let here = self.row(i);
        let left = Row { entry, ..here };
        let change = edits::one_place(self.nodes, i, row_digest(left));
        let after = After {
            counter: raised(self.counter),
            ..self.after(left, NO_ROW)
        };
        Plan {
            values,
            ..plain(script, a, here, change, after)
        }
    }

    /// The first item.
    #[tactic(auto, unfolding(crate::specs::Plans::beginning, crate::specs::Plans::plain_plan))]
    fn insert_first(&self, a: Item) -> Plan
        ensures { result ≡ beginning sha256 self.now.nodes.now self.now.counter a }
    {
        let left = Row {
            item: a,
            next: a,
            entry: records::EMPTY,
        };
        let change = edits::one_place(self.nodes, 0, row_digest(left));
        let after = After {
            count: 1,
            ..self.after(left, NO_ROW)
        };
        plain(Script::Beginning, a, NO_ROW, change, after)
    }

    /// An item more, behind the leaf whose gap holds it.
    #[tactic(auto, unfolding(crate::specs::Plans::inserting, crate::specs::Plans::place_plan, crate::specs::Plans::plain_plan))]
    fn insert_more(&self, a: Item) -> Plan
        ensures { result ≡ inserting sha256 self.now.leaves.now self.now.nodes.now self.now.count self.now.counter a }
    {
        let i = self.place(Search::Gap, a);
        let here = self.row(i);
        let left = Row { next: a, ..here };
        let right = Row {
            item: a,
            next: here.next,
            entry: records::EMPTY,
        };
        let x = row_digest(left);
        let w = row_digest(right);
        let change = edits::two_places(self.nodes, i, self.count, x, w);
        let after = After {
            count: self.count + 1,
            ..self.after(left, right)
        };
        let hash = digests::record_hash(here.entry).bytes;
        Plan {
            next: here.next,
            hash,
            ..plain(Script::Inserting, a, here, change, after)
        }
    }

    /// The only item goes.
    #[tactic(auto, unfolding(crate::specs::Plans::emptying, crate::specs::Plans::plain_plan))]
    fn remove_only(&self, a: Item) -> Plan
        ensures { result ≡ emptying sha256 self.now.leaves.now self.now.nodes.now self.now.counter a }
    {
        let change = edits::one_place(self.nodes, 0, [0; 32]);
        let after = After {
            count: 0,
            ..self.after(NO_ROW, NO_ROW)
        };
        plain(Script::Emptying, a, self.row(0), change, after)
    }

    /// An item's leaf and the last one change places.
    #[tactic(auto, unfolding(crate::specs::Plans::swapping, crate::specs::Plans::plain_plan))]
    fn swap(&self, a: Item) -> Plan
        ensures { result ≡ swapping sha256 self.now.leaves.now self.now.nodes.now self.now.count self.now.counter a }
    {
        let i = self.place(Search::Own, a);
        let j = self.last();
        let left = self.row(i);
        let right = self.row(j);
        let x = slots::node_at(self.nodes, SLOTS + j);
        let w = slots::node_at(self.nodes, SLOTS + i);
        let change = edits::two_places(self.nodes, i, j, x, w);
        plain(Script::Swapping, a, left, change, self.after(right, left))
    }

    /// An item's leaf, the last one, goes: the leaf that leads to it leads past it.
    #[tactic(auto, unfolding(crate::specs::Plans::dropping, crate::specs::Plans::place_plan, crate::specs::Plans::plain_plan))]
    fn remove_last(&self, a: Item) -> Plan
        ensures { result ≡ dropping sha256 self.now.leaves.now self.now.nodes.now self.now.count self.now.counter a }
    {
        let i = self.place(Search::Leading, a);
        let j = self.last();
        let here = self.row(i);
        let next = self.row(j).next;
        let left = Row { next, ..here };
        let x = row_digest(left);
        let change = edits::two_places(self.nodes, i, j, x, [0; 32]);
        let after = After {
            count: j,
            ..self.after(left, NO_ROW)
        };
        let hash = digests::record_hash(here.entry).bytes;
        Plan {
            next,
            hash,
            ..plain(Script::Dropping, a, here, change, after)
        }
    }

    /// The only item goes; else the last leaf goes at once, and any other changes places with it first.
    #[tactic(auto, unfolding(crate::specs::Plans::removing))]
    fn remove(&self, a: Item) -> Plan
        ensures { result ≡ removing sha256 self.now.leaves.now self.now.nodes.now self.now.count self.now.counter a }
    {
        if self.count <= 1 {
            return self.remove_only(a);
        }
        if self.place(Search::Own, a) == self.last() {
            return self.remove_last(a);
        }
        self.swap(a)
    }

    fn plan_for(&self, wish: Wish) -> Plan
        ensures { result ≡ plan_for sha256 self.now.leaves.now self.now.nodes.now self.now.count self.now.counter wish }
    {
        match wish {
            Wish::Insert(a) if self.count == 0 => self.insert_first(a),
            Wish::Insert(a) => self.insert_more(a),
            Wish::Remove(a) => self.remove(a),
            Wish::Set(a, v) => self.rewrite(Script::Setting, a, v, record_after(self.counter, v)),
            Wish::Clear(a) => self.rewrite(Script::Clearing, a, NO_VALUES, records::EMPTY),
            Wish::Ask(q) => self.ask(q),
        }
    }
}

/// An item's leaf, the last one, goes: the leaf that leads to it leads past it.
pub fn drop_plan(a: Item, count: usize, c: Revision, leaves: &[u64], nodes: &[u8]) -> Plan
    ensures { result ≡ dropping sha256 leaves.now nodes.now (held_of count) c a }
{
    let memory = Memory {
        leaves,
        nodes,
        count: wishes::held(count),
        counter: c,
    };
    memory.remove_last(a)
}

/// A wish, in a memory that holds so many leaves, with the counter that the module gave last: its plan, unless the tablet refuses it
/// by itself.
#[tactic(auto, unfolding(crate::specs::Plans::begun_for))]
pub fn begin(
    wish: Wish,
    count: usize,
    counter: Revision,
    leaves: &[u64],
    nodes: &[u8],
) -> Result<Plan, Refused>
    ensures { result ≡ begun_for sha256 leaves.now nodes.now (held_of count) counter wish }
{
    wishes::word(wish, count, counter, leaves)?;
    let memory = Memory {
        leaves,
        nodes,
        count: wishes::held(count),
        counter,
    };
    Ok(memory.plan_for(wish))
}
