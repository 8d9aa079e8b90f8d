//! The store as the program starts: read whole, judged, and its leaves put into memory; or what is wrong with which line.
ghost use Rattle.std.specs.Prelude.{◌≤◌, length, IfOk, IsErr};
ghost use Rattle.keeper.specs.Opening.{OpenedAs};

use memory::LoadError;
use std::fs::File;
use std::io::{self, ErrorKind, Print, Read};
use std::str;
use store::Fault;

/// Why the store could not be loaded: it cannot be read, has too many lines, or a line or a pair of lines is wrong.
#[derive(Clone, Copy)]
pub enum Shut {
    Unreadable,
    Many,
    Line(usize),
    Pair(usize, usize),
}

/// Tells why. A line's number counts from 1.
pub(crate) fn tell(rt: &HostRuntime, shut: Shut) {
    let _ = match shut {
        Shut::Unreadable => rt.write_all(b"# store cannot be read\n"),
        Shut::Many => rt.write_all(b"# store has more than 1024 lines\n"),
        Shut::Line(i) => {
            let line = i.saturating_add(1);
            println!(rt; "# store line {line} cannot be read")
        }
        Shut::Pair(i, j) => {
            let first = i.saturating_add(1);
            let second = j.saturating_add(1);
            println!(rt; "# store lines {first} and {second} break the ring")
        }
    };
}

/// So many bytes of a file, up to its end or the buffer's.
fn fill(file: &mut File, buffer: &mut [u8]) -> io::Result<usize>
    ensures { IfOk result (λ n. n ≤ length buffer.new) }
{
    let mut n: usize = 0;
    // No plainer as a `for`: how far each read comes is the system's to say.
    while n < buffer.len() {
        let more = file.read(&mut buffer[n..])?;
        if more == 0 {
            break;
        }
        n += more;
    }
    Ok(n)
}

/// A store of more lines than there are slots: the first that cannot be read is named, if there is one. Lines that can be read have 97
/// bytes, so that a buffer full of them ends where a line does.
fn judge_long(file: &mut File, text: &[u8], more: &mut [u8], read: usize) -> Result<usize, Shut>
    requires { read ≤ length more.old }
    ensures { IsErr result }
{
    let mut before = match store::count_lines(text) {
        Ok(n) => n,
        Err(i) => return Err(Shut::Line(i)),
    };
    let mut m = read;
    for _ in 0..u64::MAX {
        match store::count_lines(&more[..m]) {
            Ok(n) => before = before.saturating_add(n),
            Err(i) => return Err(Shut::Line(before.saturating_add(i))),
        }
        match fill(file, more) {
            Ok(0) => break,
            Ok(next) => m = next,
            Err(_) => return Err(Shut::Unreadable),
        }
    }
    Err(Shut::Many)
}

fn load(text: &[u8], leaves: &mut [u64], nodes: &mut [u8]) -> Result<usize, Shut>
    ensures { OpenedAs result leaves.old nodes.old leaves.new nodes.new }
{
    match memory::load(text, leaves, nodes) {
        Ok(k) => Ok(k),
        Err(LoadError::Fault(Fault::Unreadable(i))) => Err(Shut::Line(i)),
        Err(LoadError::Fault(Fault::TooMany(_))) => Err(Shut::Many),
        Err(LoadError::Fault(Fault::Broken(i, j))) => Err(Shut::Pair(i, j)),
        Err(LoadError::NoRoom) => Err(Shut::Many),
    }
}

fn open_read(
    file: &mut File,
    text: &mut [u8],
    more: &mut [u8],
    leaves: &mut [u64],
    nodes: &mut [u8],
) -> Result<usize, Shut>
    ensures { OpenedAs result leaves.old nodes.old leaves.new nodes.new }
{
    let Ok(n) = fill(file, text) else {
        return Err(Shut::Unreadable);
    };
    let Ok(m) = fill(file, more) else {
        return Err(Shut::Unreadable);
    };
    if m == 0 {
        return load(&text[..n], leaves, nodes);
    }
    judge_long(file, text, more, m)
}

/// How many leaves are held, or why none are. A missing store is an empty one. What is held is what some text loads to, and where the
/// store is shut memory is as it was; that the text is the file's, and what then stands in the two buffers, is for the system to see to.
pub fn open(
    rt: &HostRuntime,
    path: &[u8],
    text: &mut [u8],
    more: &mut [u8],
    leaves: &mut [u64],
    nodes: &mut [u8],
) -> Result<usize, Shut>
    ensures { OpenedAs result leaves.old nodes.old leaves.new nodes.new }
{
    let Ok(path) = str::from_utf8(path) else {
        return Err(Shut::Unreadable);
    };
    match File::open(rt, path) {
        Ok(mut file) => open_read(&mut file, text, more, leaves, nodes),
        Err(e) => {
            if e.kind() == ErrorKind::NotFound {
                return load(&text[..0], leaves, nodes);
            }
            Err(Shut::Unreadable)
        }
    }
}
