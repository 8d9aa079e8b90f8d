//! SHA-256 (FIPS 180-4) of a message of any length, and the number of blocks that it takes.
//!
//! Callers use `digest`, `blocks` and the definitions `sha256` and `blocks` of specs/ only: how a block's
//! words are scheduled and worked is this crate's own business.
#![tactic(auto)]

ghost use Rattle.std.specs.Prelude.{◌≡◌};
ghost use Rattle.sha256.specs.Hash.{added, words_as_bytes, sha256};
ghost use Rattle.sha256.specs.Padding as Counted;

mod message;
mod rounds;
mod schedule;
mod words;

/// The eight words of a hash value, and of the working variables.
#[derive(Clone, Copy)]
pub struct State {
    pub a: u32,
    pub b: u32,
    pub c: u32,
    pub d: u32,
    pub e: u32,
    pub f: u32,
    pub g: u32,
    pub h: u32,
}

/// The hash value before the first block (5.3.3).
const INITIAL: State = State {
    a: 0x6a09_e667,
    b: 0xbb67_ae85,
    c: 0x3c6e_f372,
    d: 0xa54f_f53a,
    e: 0x510e_527f,
    f: 0x9b05_688c,
    g: 0x1f83_d9ab,
    h: 0x5be0_cd19,
};

impl State {
    /// The hash value and the working variables v, added word by word.
    fn plus(self, v: State) -> State
        ensures { result ≡ added self v }
    {
        State {
            a: v.a.wrapping_add(self.a),
            b: v.b.wrapping_add(self.b),
            c: v.c.wrapping_add(self.c),
            d: v.d.wrapping_add(self.d),
            e: v.e.wrapping_add(self.e),
            f: v.f.wrapping_add(self.f),
            g: v.g.wrapping_add(self.g),
            h: v.h.wrapping_add(self.h),
        }
    }

    /// The 32 bytes of a hash value.
    fn to_bytes(self) -> [u8; 32]
        ensures { result ≡ words_as_bytes self }
    {
        let mut out = [0; 32];
        out[0..4].copy_from_slice(&self.a.to_be_bytes());
        out[4..8].copy_from_slice(&self.b.to_be_bytes());
        out[8..12].copy_from_slice(&self.c.to_be_bytes());
        out[12..16].copy_from_slice(&self.d.to_be_bytes());
        out[16..20].copy_from_slice(&self.e.to_be_bytes());
        out[20..24].copy_from_slice(&self.f.to_be_bytes());
        out[24..28].copy_from_slice(&self.g.to_be_bytes());
        out[28..32].copy_from_slice(&self.h.to_be_bytes());
        out
    }
}

/// The blocks of a message of so many bytes, once it is padded. The quotient is taken in two parts, so that
/// no length is too large for it.
pub fn blocks(bytes: usize) -> usize
    ensures { result ≡ Counted.blocks bytes }
{
    bytes / 64 + (bytes % 64 + 8) / 64 + 1
}

/// The digest of any message.
pub fn digest(message: &[u8]) -> [u8; 32]
    ensures { result ≡ sha256 message.now }
{
    let mut s = INITIAL;
    for i in 0..blocks(message.len()) {
        s = s.plus(s.turned(message, i));
    }
    s.to_bytes()
}
