//! Words: a wish as people write it, read; and what came of it, told in a line that begins with `# `.
#![tactic(auto)]

ghost use Rattle.std.specs.Prelude.{◌≡◌, ◌==◌, ◌+◌, ◌*◌, ◌≤◌, length, position};
ghost use Rattle.decimals.specs.Decimals.{decimal_in};
ghost use Rattle.words.specs.Reading.{word_in, by_name, by_four, setting_of};
ghost use Rattle.words.specs.Telling.{told, told_text, numbered};
ghost use Rattle.wishes.specs.Words.{word_name};
ghost use Rattle.words.specs.Building.{FirstWord};

use buffers::Buffer;
use paper::{Finding, Item, Kilograms, Millimetres, Revision, Rigging, Values};
use wishes::{Refused, Wish};

/// What a line says where no reply is awaited: a wish, or the counter that the module gave last.
#[derive(Clone, Copy)]
pub enum Word {
    Wish(Wish),
    Counter(Revision),
}

/// What is told: a change is done; a question's finding, or that there is no item at all; the tablet refuses, by the number of its
/// word; the module refused, by the number of its table; the module spoke otherwise; or a line is no wish.
#[derive(Clone, Copy)]
pub enum Telling {
    Done,
    Found(Finding),
    NoItem(Item),
    // The numbers stay bytes: docs/TRACE.md names `tell`, and it answers for every byte.
    Refused(u8),
    ModuleRefused(u8),
    Otherwise,
    What,
}

/// A text that is told; the longest has 114 bytes.
pub type Text = Buffer<128>;

// ── a line read ──

/// Where a line's first space is.
fn first_space(line: &[u8]) -> Option<usize>
    ensures { result ≡ position (λ c. c == 32) line.now }
{
    line.iter().position(|&c| c == b' ')
}

/// A line's first word, and what stands behind the space after it, if there is one.
#[tactic(auto, using(crate::proofs::Cuts::ends_at_space, crate::proofs::Cuts::ends_with_line))]
fn first_word(line: &[u8]) -> (&[u8], Option<&[u8]>)
    ensures { FirstWord line.now result.0.now result.1 }
{
    match first_space(line) {
        Some(end) => (&line[..end], Some(&line[end + 1..])),
        None => (line, None),
    }
}

/// A name and its number.
#[tactic(auto, using(crate::proofs::Names::is_same))]
fn by_name(name: &[u8], n: u64) -> Option<Word>
    ensures { result ≡ by_name name.now n }
{
    if name == b"insert".as_slice() {
        Some(Word::Wish(Wish::Insert(Item(n))))
    } else if name == b"remove".as_slice() {
        Some(Word::Wish(Wish::Remove(Item(n))))
    } else if name == b"clear".as_slice() {
        Some(Word::Wish(Wish::Clear(Item(n))))
    } else if name == b"ask".as_slice() {
        Some(Word::Wish(Wish::Ask(Item(n))))
    } else if name == b"counter".as_slice() {
        Some(Word::Counter(Revision(n)))
    } else {
        None
    }
}

/// An item and its values, where all four are numbers.
fn set_of(a: &[u8], mass: &[u8], offset: &[u8], rigging: &[u8]) -> Option<Word>
    ensures { result ≡ setting_of (decimal_in a.now) (decimal_in mass.now)
        (decimal_in offset.now) (decimal_in rigging.now) }
{
    Some(Word::Wish(Wish::Set(
        Item(decimals::read(a)?),
        Values {
            mass: Kilograms(decimals::read(mass)?),
            offset: Millimetres(decimals::read(offset)?),
            rigging: Rigging(decimals::read(rigging)?),
        },
    )))
}

/// The only name with four numbers.
#[tactic(auto, using(crate::proofs::Names::is_same))]
fn by_four(name: &[u8], a: &[u8], mass: &[u8], offset: &[u8], rigging: &[u8]) -> Option<Word>
    ensures { result ≡ by_four name.now (decimal_in a.now) (decimal_in mass.now)
        (decimal_in offset.now) (decimal_in rigging.now) }
{
    if name == b"set".as_slice() {
        set_of(a, mass, offset, rigging)
    } else {
        None
    }
}

/// What a line says, without its 0A, if it says anything.
pub fn read(line: &[u8]) -> Option<Word>
    ensures { result ≡ word_in line.now }
{
    let (name, rest) = first_word(line);
    let (item, rest) = first_word(rest?);
    let Some(rest) = rest else {
        return by_name(name, decimals::read(item)?);
    };
    let (mass, rest) = first_word(rest);
    let (offset, rest) = first_word(rest?);
    let (rigging, rest) = first_word(rest?);
    match rest {
        None => by_four(name, item, mass, offset, rigging),
        Some(_) => None,
    }
}

// ── a line told ──

/// A text, and numbers behind it with a space before each.
fn numbered(text: &[u8], numbers: &[u64]) -> Text
    requires { length text.now + 21 * length numbers.now ≤ 127 }
    ensures value { result ≡ numbered text.now numbers.now }
    ensures room { length result ≤ 127 }
{
    let mut told = Text::new().with(text);
    for &n in numbers {
        told = told.with(b" ").with(decimals::spell(n).as_slice());
    }
    told
}

/// The word by which the tablet refuses; no other number has one.
fn word_name(word: u8) -> &'static [u8]
    ensures value { result.now ≡ word_name word }
    ensures short { length result.now ≤ 8 }
{
    match Refused::try_from(word) {
        Ok(refused) => refused.name(),
        Err(_) => b"",
    }
}

fn without_end(t: Telling) -> Text
    ensures value { result ≡ told_text t }
    ensures room { length result ≤ 127 }
{
    match t {
        Telling::Done => Text::new().with(b"# done"),
        Telling::Found(Finding::Recorded(a, r)) => numbered(
            b"# record",
            &[a.0, r.revision.0, r.mass.0, r.offset.0, r.rigging.0],
        ),
        Telling::Found(Finding::Listed(a)) => numbered(b"# empty", &[a.0]),
        Telling::Found(Finding::Gap(a, b)) => numbered(b"# gap", &[a.0, b.0]),
        Telling::NoItem(q) => numbered(b"# none", &[q.0]),
        Telling::Refused(word) => Text::new().with(b"# refused ").with(word_name(word)),
        Telling::ModuleRefused(n) => numbered(b"# module refused", &[n as u64]),
        Telling::Otherwise => Text::new().with(b"# module spoke otherwise"),
        Telling::What => Text::new().with(b"# what?"),
    }
}

/// The line that tells it, with its 0A.
#[tactic(auto, unfolding(crate::specs::Telling::told))]
pub fn tell(t: Telling) -> Text
    ensures value { result ≡ told t }
    ensures bound { length result ≤ 128 }
{
    without_end(t).with(b"\n")
}
