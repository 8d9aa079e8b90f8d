//! The padded message of FIPS 180-4, sections 5.1.1 and 5.2.1, read where the message lies: no copy of
//! it is made, and its padding is computed byte by byte.
ghost use Rattle.std.specs.Prelude.{◌≡◌, ◌+◌, ◌*◌, ◌<◌, ◌≤◌, length, slice_index};
ghost use Rattle.sha256.specs.Padding.{pad, blocks, word, word_at};
ghost use Rattle.seqs.specs.Bytes.{byte_of};

/// A byte of the padded message. Out of line: it is called for one word in a message or two, and within `word_at` its variables
/// would be on the stack all the while.
#[inline(never)]
fn padded(message: &[u8], i: usize) -> u8
    requires { i < blocks (length message.now) * 64 }
    ensures { result ≡ slice_index (pad message.now) i }
{
    let n = message.len();
    if i < n {
        return message[i];
    }
    if i == n {
        return 0x80;
    }
    let end = crate::blocks(n) * 64;
    if i + 8 < end {
        return 0;
    }
    ((n as u64) << 3).to_be_bytes()[i + 8 - end]
}

/// The word of the padded message that begins at byte j. Whole words of the message and of the
/// zeros, which are nearly all, need no look at their bytes one by one.
#[tactic(auto, unfolding(crate::specs::Padding::word_at), using(crate::proofs::Padding::in_message, crate::proofs::Padding::in_zeros))]
pub(crate) fn word_at(message: &[u8], j: usize) -> u32
    requires { j + 4 ≤ blocks (length message.now) * 64 }
    ensures { result ≡ word_at (pad message.now) j }
{
    let n = message.len();
    if j + 4 <= n {
        return u32::from_be_bytes([message[j], message[j + 1], message[j + 2], message[j + 3]]);
    }
    if n < j && j + 12 <= crate::blocks(n) * 64 {
        return 0;
    }
    u32::from_be_bytes([
        padded(message, j),
        padded(message, j + 1),
        padded(message, j + 2),
        padded(message, j + 3),
    ])
}
