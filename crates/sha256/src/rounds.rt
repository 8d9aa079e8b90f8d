//! The 64 turns of FIPS 180-4, section 6.2.2, steps 2 and 3.
ghost use Rattle.std.specs.Prelude.{◌≡◌, ◌+◌, ◌<◌, ◌≤◌, length, slice_index};
ghost use Rattle.sha256.specs.Constants.{K};
ghost use Rattle.sha256.specs.Padding.{pad, blocks};
ghost use Rattle.sha256.specs.Hash.{after_turn, schedule, rounds};

use crate::State;
use crate::schedule::{load, roll_four};
use crate::words::{big0, big1, choose, majority};

/// The constant of turn t. A `match` and no array: whoever reads an array has it on the stack first, 256 bytes of it, and
/// this one stays where the code is.
fn constant(t: usize) -> u32
    requires { t < 64 }
    ensures { result ≡ slice_index K t }
{
    match t {
        0 => 0x428a_2f98,
        1 => 0x7137_4491,
        2 => 0xb5c0_fbcf,
        3 => 0xe9b5_dba5,
        4 => 0x3956_c25b,
        5 => 0x59f1_11f1,
        6 => 0x923f_82a4,
        7 => 0xab1c_5ed5,
        8 => 0xd807_aa98,
        9 => 0x1283_5b01,
        10 => 0x2431_85be,
        11 => 0x550c_7dc3,
        12 => 0x72be_5d74,
        13 => 0x80de_b1fe,
        14 => 0x9bdc_06a7,
        15 => 0xc19b_f174,
        16 => 0xe49b_69c1,
        17 => 0xefbe_4786,
        18 => 0x0fc1_9dc6,
        19 => 0x240c_a1cc,
        20 => 0x2de9_2c6f,
        21 => 0x4a74_84aa,
        22 => 0x5cb0_a9dc,
        23 => 0x76f9_88da,
        24 => 0x983e_5152,
        25 => 0xa831_c66d,
        26 => 0xb003_27c8,
        27 => 0xbf59_7fc7,
        28 => 0xc6e0_0bf3,
        29 => 0xd5a7_9147,
        30 => 0x06ca_6351,
        31 => 0x1429_2967,
        32 => 0x27b7_0a85,
        33 => 0x2e1b_2138,
        34 => 0x4d2c_6dfc,
        35 => 0x5338_0d13,
        36 => 0x650a_7354,
        37 => 0x766a_0abb,
        38 => 0x81c2_c92e,
        39 => 0x9272_2c85,
        40 => 0xa2bf_e8a1,
        41 => 0xa81a_664b,
        42 => 0xc24b_8b70,
        43 => 0xc76c_51a3,
        44 => 0xd192_e819,
        45 => 0xd699_0624,
        46 => 0xf40e_3585,
        47 => 0x106a_a070,
        48 => 0x19a4_c116,
        49 => 0x1e37_6c08,
        50 => 0x2748_774c,
        51 => 0x34b0_bcb5,
        52 => 0x391c_0cb3,
        53 => 0x4ed8_aa4a,
        54 => 0x5b9c_ca4f,
        55 => 0x682e_6ff3,
        56 => 0x748f_82ee,
        57 => 0x78a5_636f,
        58 => 0x84c8_7814,
        59 => 0x8cc7_0208,
        60 => 0x90be_fffa,
        61 => 0xa450_6ceb,
        62 => 0xbef9_a3f7,
        63.. => 0xc671_78f2,
    }
}

impl State {
    /// One turn, with its constant and its word.
    #[tactic(auto, unfolding(crate::specs::Hash::after_turn, crate::specs::Hash::T1, crate::specs::Hash::T2))]
    fn turn(self, k: u32, w: u32) -> State
        ensures { result ≡ after_turn self k w }
    {
        let t1 = self
            .h
            .wrapping_add(big1(self.e))
            .wrapping_add(choose(self.e, self.f, self.g))
            .wrapping_add(k)
            .wrapping_add(w);
        let t2 = big0(self.a).wrapping_add(majority(self.a, self.b, self.c));
        State {
            a: t1.wrapping_add(t2),
            b: self.a,
            c: self.b,
            d: self.c,
            e: self.d.wrapping_add(t1),
            f: self.e,
            g: self.f,
            h: self.g,
        }
    }

    /// All 64 turns, over the schedule of block i, of which sixteen words are there at a time. Four in a row: the compiler then keeps
    /// the working variables in registers instead of moving them along.
    pub(crate) fn turned(self, message: &[u8], i: usize) -> State
        requires { i + 1 ≤ blocks (length message.now) }
        ensures { result ≡ rounds 64 (schedule (pad message.now) i 64) self }
    {
        let mut ws = [0; 16];
        load(message, i, &mut ws);
        let mut v = self;
        for j in 0..16 {
            roll_four(&mut ws, 4 * j);
            for t in 4 * j..4 * j + 4 {
                v = v.turn(constant(t), ws[t % 16]);
            }
        }
        v
    }
}
