//! The message schedule of FIPS 180-4, section 6.2.2, step 1, in sixteen words that roll over: word t stands at place t mod 16,
//! where word t - 16 stood, which it is the last to ask for.
ghost use Rattle.std.specs.Prelude.{◌≡◌, ℕ, ◌+◌, ◌%◌, ◌<◌, ◌≤◌, List, length};
ghost use Rattle.sha256.specs.Padding.{pad, blocks};
ghost use Rattle.sha256.specs.Hash.{scheduled};
ghost use Rattle.sha256.specs.Work.{Rolling, due};

use crate::message::word_at;
use crate::words::{small0, small1};

/// The word that the words 2, 7, 15 and 16 places before it give.
#[tactic(auto, unfolding(crate::specs::Hash::scheduled))]
fn next(w2: u32, w7: u32, w15: u32, w16: u32) -> u32
    ensures { result ≡ scheduled w2 w7 w15 w16 }
{
    small1(w2)
        .wrapping_add(w7)
        .wrapping_add(small0(w15))
        .wrapping_add(w16)
}

/// The first 16 words, those of block i of the padded message. Into the caller's array: one handed back is copied, and takes 64 bytes
/// of stack more.
pub(crate) fn load(message: &[u8], i: usize, ws: &mut [u32; 16])
    requires { i + 1 ≤ blocks (length message.now) }
    ensures { Rolling (pad message.now) i 16 ws.new }
{
    for t in 0..16 {
        ws[t] = word_at(message, i * 64 + t * 4);
    }
}

/// Word t over word t - 16, whichever block's they are.
fn roll(ws: &mut [u32; 16], t: usize)
    requires { (16 ≤ t) × (t < 64) }
    ensures { (p : List ℕ) (i : ℕ) → Rolling p i t ws.old → Rolling p i (t + 1) ws.new }
{
    ws[t % 16] = next(
        ws[(t - 2) % 16],
        ws[(t - 7) % 16],
        ws[(t - 15) % 16],
        ws[(t - 16) % 16],
    );
}

/// The words of four turns from turn t on, where they are not among the first 16.
pub(crate) fn roll_four(ws: &mut [u32; 16], t: usize)
    requires { (t + 4 ≤ 64) × (t % 4 ≡ 0) }
    ensures { (p : List ℕ) (i : ℕ) → Rolling p i (due t) ws.old → Rolling p i (due (t + 4)) ws.new }
{
    if t < 16 {
        return;
    }
    for k in t..t + 4 {
        roll(ws, k);
    }
}
