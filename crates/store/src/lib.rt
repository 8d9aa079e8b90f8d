//! The tablet's store as text: a line for each slot in order, A, A' and the record in 96 digits, and 0A. A line read and written, a
//! whole text judged, and written.
#![tactic(auto)]

ghost use Rattle.std.specs.Prelude.{◌≡◌, true, ◌+◌, ◌*◌, ◌<◌, ◌≤◌, leb, length, drop, is_some};
ghost use Rattle.seqs.specs.Bytes.{number_at};
ghost use Rattle.seqs.specs.Over.{written};
ghost use Rattle.hexadecimal.specs.Hex.{bytes_of};
ghost use Rattle.rows.specs.Rows.{rows_from, of_item};
ghost use Rattle.rows.specs.Pairs.{row_of, any_of};
ghost use Rattle.store.specs.Lines.{line_bytes, row_bytes, row_in, may_stand, line_read, line_of_row};
ghost use Rattle.store.specs.Texts.{text_read, lines_in, text_of, front_line};
ghost use Rattle.store.specs.Judging.{broken_by, ring_judged, judged};

use paper::{Item, Kilograms, Millimetres, Record, Revision, Rigging};
use rows::Row;

/// The digits of a line. The definitions' name for it is `line_digits`.
pub const DIGITS: usize = 96;

/// The bytes of a line with its 0A. The definitions' name for it is `line_bytes`.
pub const LINE: usize = 97;

/// Why a text is no store: a line that cannot be read, by how many stand before it; too many lines, so many; or two that break the
/// ring.
#[derive(Clone, Copy, Debug, PartialEq, Eq)]
pub enum Fault {
    Unreadable(usize),
    TooMany(usize),
    Broken(usize, usize),
}

/// A leaf's numbers, one behind the other.
#[tactic(auto, unfolding(crate::specs::Lines::row_bytes, seqs::specs::Bytes::be64))]
fn row_bytes(r: Row) -> [u8; 48]
    ensures { result ≡ row_bytes r }
{
    let mut s = [0; 48];
    s[0..8].copy_from_slice(&r.item.0.to_be_bytes());
    s[8..16].copy_from_slice(&r.next.0.to_be_bytes());
    s[16..48].copy_from_slice(&records::record_bytes(r.entry));
    s
}

/// The leaf whose numbers stand in a line's bytes.
#[tactic(auto, unfolding(crate::specs::Lines::row_in))]
fn row_in(b: &[u8]) -> Row
    ensures { result ≡ row_in b.now }
{
    Row {
        item: Item(fields::number_at(b, 0)),
        next: Item(fields::number_at(b, 8)),
        entry: Record {
            revision: Revision(fields::number_at(b, 16)),
            mass: Kilograms(fields::number_at(b, 24)),
            offset: Millimetres(fields::number_at(b, 32)),
            rigging: Rigging(fields::number_at(b, 40)),
        },
    }
}

/// Whether a leaf may stand in a store.
#[tactic(auto, unfolding(crate::specs::Lines::may_stand))]
fn may_stand(r: Row) -> bool
    ensures { result ≡ may_stand r }
{
    r.item.0 != 0 && r.next.0 != 0 && !records::is_malformed(r.entry)
}

/// Reads a line, given without its 0A: its leaf, or nothing where it cannot be read.
#[tactic(auto, unfolding(crate::specs::Lines::line_read))]
pub fn read_line(line: &[u8]) -> Option<Row>
    ensures { result ≡ line_read line.now }
{
    if line.len() != DIGITS || !hexadecimal::all_digits(line) {
        return None;
    }
    let mut b = [0u8; 48];
    hexadecimal::read(line, &mut b);
    let r = row_in(&b);
    if may_stand(r) { Some(r) } else { None }
}

/// Writes a leaf's line, with its 0A, over the front of the space, or nothing where it does not fit: whether it does.
pub fn write_line(r: Row, space: &mut [u8]) -> bool
    ensures value { result ≡ leb line_bytes (length space.old) }
    ensures space_after { space.new ≡ written (line_of_row r) space.old }
{
    hexadecimal::write(&row_bytes(r), space)
}

/// Whether a line that can be read, with its 0A, stands at the front of a text.
#[tactic(auto, unfolding(crate::specs::Texts::front_line))]
fn begins(text: &[u8]) -> bool
    ensures { result ≡ is_some (front_line text.now) }
{
    text.len() >= LINE && text[DIGITS] == 0x0a && read_line(&text[..DIGITS]).is_some()
}

/// How many lines a text has; else how many stand before the first that cannot be read.
pub fn count_lines(text: &[u8]) -> Result<usize, usize>
    ensures { result ≡ lines_in text.now }
{
    let whole = text.len() / LINE;
    for n in 0..whole {
        if !begins(&text[LINE * n..]) {
            return Err(n);
        }
    }
    if text.len() % LINE == 0 {
        Ok(whole)
    } else {
        Err(whole)
    }
}

// The leaves and how many of them stay apart: docs/TRACE.md names `save`, which answers for any two.
/// Writes the lines of the first k leaves over the front of the space, or nothing where they do not fit: whether they do.
pub fn save(leaves: &[u64], k: usize, space: &mut [u8]) -> bool
    ensures value { result ≡ leb (line_bytes * k) (length space.old) }
    ensures space_after { space.new ≡ written (text_of (rows_from leaves.now k 0)) space.old }
{
    if space.len() / LINE < k {
        return false;
    }
    for i in 0..k {
        let at = LINE * i;
        write_line(rows::row_at(leaves, i), &mut space[at..at + LINE]);
    }
    true
}

/// Whether line i, of an item that leads to the next, breaks with line j of item q; with itself it breaks where the next item does
/// not stand in a line.
fn breaks(i: usize, j: usize, q: Item, item: Item, next: Item, led: bool) -> bool
    ensures { result ≡ broken_by q.0 i j item.0 next.0 led }
{
    if i == j {
        return !led;
    }
    q == item || records::in_gap(q, item, next)
}

/// A text whose lines can all be read, and how many they are. The items of a line are taken straight from their digits, as line i
/// stands behind i lines of one length.
#[derive(Clone, Copy)]
struct Lines<'a> {
    text: &'a [u8],
    count: usize,
    ghost whole: { (text_read text.now).whole ≡ true },
    ghost counted: { count ≡ length (text_read text.now).rows },
    ghost sized: { length text.now ≡ line_bytes * count },
}

impl<'a> Lines<'a> {
    /// The number whose 16 digits stand at a place.
    fn number(&self, at: usize) -> u64
        requires { at + 16 ≤ length self.now.text.now }
        ensures { result ≡ number_at (bytes_of (drop at self.now.text.now)) 0 }
    {
        let mut bytes = [0u8; 8];
        hexadecimal::read(&self.text[at..at + 16], &mut bytes);
        fields::number_at(&bytes, 0)
    }

    /// The item of line i.
    fn item(&self, i: usize) -> Item
        requires { i < self.now.count }
        ensures { result ≡ (row_of (text_read self.now.text.now).rows i).item }
    {
        Item(self.number(LINE * i))
    }

    /// The item that line i leads to.
    fn next(&self, i: usize) -> Item
        requires { i < self.now.count }
        ensures { result ≡ (row_of (text_read self.now.text.now).rows i).next }
    {
        Item(self.number(LINE * i + 16))
    }

    /// Whether one of the lines is of item a.
    #[tactic(auto, using(crate::proofs::Judging::any_here, crate::proofs::Judging::any_none))]
    fn has(&self, a: Item) -> bool
        ensures { result ≡ any_of (of_item a.0) (text_read self.now.text.now).rows }
    {
        for i in 0..self.count {
            if a == self.item(i) {
                return true;
            }
        }
        false
    }

    /// How many they are, where they are one ring; else the first two that break it.
    #[tactic(auto, using(crate::proofs::Judging::broken_there, crate::proofs::Judging::next_breaks_none, crate::proofs::Judging::ring_broken, crate::proofs::Judging::ring_whole))]
    fn ring(&self) -> Result<usize, Fault>
        ensures { result ≡ ring_judged (text_read self.now.text.now).rows }
    {
        for i in 0..self.count {
            let item = self.item(i);
            let next = self.next(i);
            let led = self.has(next);
            for j in 0..self.count {
                if breaks(i, j, self.item(j), item, next, led) {
                    return Err(Fault::Broken(i, j));
                }
            }
        }
        Ok(self.count)
    }
}

/// Whether a text's lines can all be read, are at most so many and are one ascending ring: how many they are, or what is wrong.
#[tactic(auto, using(crate::proofs::Judging::judged_stopped, crate::proofs::Judging::judged_ring))]
pub fn judge(text: &[u8], most: usize) -> Result<usize, Fault>
    ensures { result ≡ judged text.now most }
{
    match count_lines(text) {
        Ok(count) if most < count => Err(Fault::TooMany(count)),
        Ok(count) => Lines { text, count }.ring(),
        Err(n) => Err(Fault::Unreadable(n)),
    }
}
