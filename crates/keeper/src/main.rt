//! The keeper's program: `keeper STORE` reads wishes in words and the module's replies, one to a line, and writes a line for each; the
//! leaves are kept in the file STORE. What each line leads to is `turns`; here are input, output and the disk.
#![tactic(auto)]

mod disk;
mod loading;

ghost use Rattle.std.specs.Prelude.{◌≡◌, ◌≤◌, length, IfOk};
ghost use Rattle.sha256.specs.Hash.{sha256};
ghost use Rattle.turns.specs.Turns.{turn_of, leaves_after, nodes_after};
ghost use Rattle.keeper.specs.Due.{Due};

use disk::Names;
use pieces::Cut;
use std::env::FillError;
use std::io::{Print, Read};
use std::rt::Env;
use turns::Desk;

/// A longer line is none: the longest reply that is ever awaited has 194 digits, the longest wish 87 bytes.
const LONGEST: usize = 256;

/// Why the program stops before the end of its input.
#[derive(Clone, Copy)]
enum Stopped {
    Unread,
    Unwritten,
    Unkept,
}

/// It is said in words on standard error, as `main` hands no status on: `bin/keeper` makes one of them. The store on disk is the old
/// one or the new one, whole; which of them the program cannot know.
fn tell_stopped(rt: &HostRuntime, why: Stopped) {
    if let Stopped::Unkept = why {
        let _ = rt.write_all(b"# store cannot be written\n");
    }
    let words: &[u8] = match why {
        Stopped::Unread => b"keeper: standard input could not be read; the program stops here\n",
        Stopped::Unwritten => b"keeper: a line could not be written; the program stops here\n",
        Stopped::Unkept => {
            b"keeper: the store could not be written; the program stops here, and the module has accepted the change\n"
        }
    };
    let _ = rt.stderr().write_all(words);
}

/// The desk, memory, where a line that goes out is made, and where the store's bytes are.
#[derive(Drop)]
struct Keeper {
    desk: Desk,
    leaves: [u64; memory::LEAVES],
    nodes: [u8; memory::NODES],
    out: [u8; 4096],
    text: [u8; disk::TEXT],
}

/// The one place that writes what a turn says. No contract can say what a call of the system does with these bytes; so the caller has
/// to show that they are what the line led to.
fn say(rt: &HostRuntime, d: Desk, line: &[u8], text: &[u8]) -> Result<(), Stopped>
    requires { Due d line.now text.now }
{
    rt.write_all(text).map_err(|_| Stopped::Unwritten)
}

impl Keeper {
    /// One line: memory first, then the disk where memory changed, and only then is anything said.
    fn answer(&mut self, rt: &HostRuntime, line: &[u8], names: Names<'_>) -> Result<(), Stopped>
        ensures desk_value { self.new.desk ≡ (turn_of sha256 self.old.desk line.now self.old.leaves self.old.nodes).desk }
        ensures leaves_after { self.new.leaves ≡ leaves_after self.old.desk line.now self.old.leaves }
        ensures nodes_after { self.new.nodes ≡ nodes_after sha256 self.old.desk line.now self.old.nodes }
    {
        let before = self.desk;
        let turn = turns::answer(
            before,
            line,
            &mut self.leaves,
            &mut self.nodes,
            &mut self.out,
        );
        let after = turn.desk;
        self.desk = after;
        disk::keep(
            rt,
            turn.changed,
            &self.leaves,
            after.count,
            &mut self.text,
            names,
        )
        .ok_or(Stopped::Unkept)?;
        let length = turn.length.ok_or(Stopped::Unwritten)?;
        say(rt, before, line, &self.out[..length])
    }

    /// Answers the lines of a piece of input; the line's space holds `held` bytes of a line that began earlier, and then as many as are
    /// the result.
    fn serve_piece(
        &mut self,
        rt: &HostRuntime,
        piece: &[u8],
        line: &mut [u8],
        held: usize,
        names: Names<'_>,
    ) -> Result<usize, Stopped>
        requires { held ≤ length line.old }
        ensures { IfOk result (λ n. n ≤ length line.old) }
    {
        let mut at: usize = 0;
        let mut n = held;
        // No plainer as a `for`: how far a line reaches is known once it is cut.
        while at < piece.len() {
            match pieces::next_line(piece, at, line, n) {
                Cut::Line(rest, len) => {
                    self.answer(rt, &line[..len], names)?;
                    at = rest;
                    n = 0;
                }
                Cut::More(len) => {
                    at = piece.len();
                    n = len;
                }
            }
        }
        Ok(n)
    }

    /// Reads to the end of the input, where a last line without 0A is a line too. A proved loop has to end, and nothing says that input
    /// does: the reads are counted up to a number that no run reaches.
    fn run(
        &mut self,
        rt: &HostRuntime,
        input: &mut [u8],
        line: &mut [u8],
        names: Names<'_>,
    ) -> Result<(), Stopped> {
        let mut held: usize = 0;
        for _ in 0..u64::MAX {
            let n = rt.stdin().read(input).map_err(|_| Stopped::Unread)?;
            if n == 0 && held == 0 {
                return Ok(());
            }
            if n == 0 {
                return self.answer(rt, &line[..held], names);
            }
            held = self.serve_piece(rt, &input[..n], line, held, names)?;
        }
        Ok(())
    }
}

/// With the leaves of the store in memory, so many.
fn start(rt: &HostRuntime, names: Names<'_>) {
    let mut keeper = Keeper {
        desk: turns::start(0),
        leaves: [0; memory::LEAVES],
        nodes: [0; memory::NODES],
        out: [0; 4096],
        text: [0; disk::TEXT],
    };
    let mut more = [0u8; disk::TEXT];
    match loading::open(
        rt,
        names.path,
        &mut keeper.text,
        &mut more,
        &mut keeper.leaves,
        &mut keeper.nodes,
    ) {
        Err(shut) => {
            loading::tell(rt, shut);
            let _ = rt.stderr().write_all(
                b"keeper: the store could not be loaded; nothing was changed\n",
            );
        }
        Ok(count) => {
            let mut input = [0u8; 4096];
            let mut line = [0u8; LONGEST];
            let desk = turns::start(count);
            keeper.desk = desk;
            if let Err(why) = keeper.run(rt, &mut input, &mut line, names) {
                tell_stopped(rt, why);
            }
        }
    }
}

/// Whether the program was started with a word number i; the first bytes of the word are then in the buffer.
fn has_word(rt: &HostRuntime, i: usize, buffer: &mut [u8]) -> bool {
    !matches!(rt.arg(i, buffer), Err(FillError::NotPresent))
}

fn main(rt: HostRuntime) {
    let mut path = [0u8; 4096];
    let mut other = [0u8; 4096];
    if !has_word(&rt, 1, &mut path) || has_word(&rt, 2, &mut other) {
        let _ = rt
            .stderr()
            .write_all(b"keeper: it takes one word, the store's name\n");
        return;
    }
    let n = rt.arg(1, &mut path).unwrap_or(0);
    if n == 0 || 4091 < n {
        let _ = rt
            .stderr()
            .write_all(b"keeper: the store's name is empty or too long\n");
        return;
    }
    fields::put(&mut other, 0, &path[..n]);
    fields::put(&mut other, n, b".new");
    let names = Names {
        path: &path[..n],
        other: &other[..n + 4],
    };
    start(&rt, names);
}
