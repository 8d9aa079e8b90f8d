//! The store on disk: written whole under another name, synced, and renamed over the old one, so that a crash leaves the old one or
//! the new one; and the folder synced, so that the new name lasts.
ghost use Rattle.std.specs.Prelude.{◌≡◌, ◌≤◌, length, IfSome};
ghost use Rattle.seqs.specs.Choose.{pick};
ghost use Rattle.seqs.specs.Over.{written};
ghost use Rattle.store.specs.Texts.{text_of};
ghost use Rattle.rows.specs.Rows.{rows_from};

use std::fs::File;
use std::io::Write;
use std::{fs, str};

/// The bytes of 1,024 lines.
pub const TEXT: usize = 99328;

/// The store's name, and the other one, under which it is first written. Names are UTF-8 text here: one that is not cannot be read or
/// written.
#[derive(Clone, Copy)]
pub struct Names<'a> {
    pub path: &'a [u8],
    pub other: &'a [u8],
}

/// The folder that a name stands in, if it has one: how many of the name's bytes are the folder's, its last `/` among them.
fn folder_length(path: &[u8]) -> Option<usize>
    ensures { IfSome result (λ n. n ≤ length path.now) }
{
    for i in (0..path.len()).rev() {
        if path[i] == b'/' {
            return Some(i + 1);
        }
    }
    None
}

/// Nothing where the folder cannot be synced.
fn sync_folder(rt: &HostRuntime, path: &[u8]) -> Option<()> {
    let folder = match folder_length(path) {
        Some(n) => str::from_utf8(&path[..n]).ok()?,
        None => ".",
    };
    File::open(rt, folder).ok()?.sync_all().ok()
}

/// Nothing where these bytes cannot be the whole of a new file.
fn write_new(rt: &HostRuntime, name: &str, bytes: &[u8]) -> Option<()> {
    let mut file = File::create(rt, name).ok()?;
    file.write_all(bytes).ok()?;
    file.sync_all().ok()
}

/// The one place that writes the store; nothing where that fails. The caller has to show that the bytes are those of the leaves.
fn write_store(
    rt: &HostRuntime,
    leaves: &[u64],
    count: usize,
    bytes: &[u8],
    names: Names<'_>,
) -> Option<()>
    requires { bytes.now ≡ text_of (rows_from leaves.now count 0) }
{
    let name = str::from_utf8(names.path).ok()?;
    let other = str::from_utf8(names.other).ok()?;
    write_new(rt, other, bytes)?;
    fs::rename(rt, other, name).ok()?;
    sync_folder(rt, names.path)
}

fn keep_changed(
    rt: &HostRuntime,
    leaves: &[u64],
    count: usize,
    text: &mut [u8],
    names: Names<'_>,
) -> Option<()>
    ensures { text.new ≡ written (text_of (rows_from leaves.now count 0)) text.old }
{
    if store::save(leaves, count, text) {
        return write_store(rt, leaves, count, &text[..store::LINE * count], names);
    }
    None
}

/// The leaves of memory on disk, in place of what the store held, where they changed; nothing where the store is then not as memory
/// is. Of the disk the contract can say nothing; `text` is where the store's bytes are made.
pub fn keep(
    rt: &HostRuntime,
    changed: bool,
    leaves: &[u64],
    count: usize,
    text: &mut [u8],
    names: Names<'_>,
) -> Option<()>
    ensures { text.new ≡ pick changed (written (text_of (rows_from leaves.now count 0)) text.old)
        text.old }
{
    if changed {
        return keep_changed(rt, leaves, count, text, names);
    }
    Some(())
}
