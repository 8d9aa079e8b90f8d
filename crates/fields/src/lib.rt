//! Numbers, most significant byte first, and digests of 32 bytes in byte slices: read, put, compared. Every
//! function is total: a byte that is not there counts as 0, and what does not fit is not put.
#![tactic(auto)]

ghost use Rattle.std.specs.Prelude.{◌≡◌, ◌++◌, get_or, take, drop, replicate};
ghost use Rattle.seqs.specs.Bytes.{be64, number8, number_at, digest_at, same, all_zero};
ghost use Rattle.seqs.specs.Over.{put_at};

/// The number of eight bytes.
pub fn join8(a: u8, b: u8, c: u8, d: u8, e: u8, f: u8, g: u8, h: u8) -> u64
    ensures { result ≡ number8 a b c d e f g h }
{
    u64::from_be_bytes([a, b, c, d, e, f, g, h])
}

/// Byte i, or 0 where there is none.
pub fn byte_at(s: &[u8], i: usize) -> u8
    ensures { result ≡ get_or s.now i 0 }
{
    s.get(i).copied().unwrap_or(0)
}

/// The N bytes from place `at` on.
fn bytes_at<const N: usize>(s: &[u8], at: usize) -> [u8; N]
    ensures { result ≡ take N (drop at s.now ++ replicate N 0) }
{
    let there = &s[at.min(s.len())..];
    let n = there.len().min(N);
    let mut out = [0; N];
    out[..n].copy_from_slice(&there[..n]);
    out
}

/// The number in the eight bytes from place `at` on.
pub fn number_at(s: &[u8], at: usize) -> u64
    ensures { result ≡ number_at s.now at }
{
    u64::from_be_bytes(bytes_at(s, at))
}

/// The eight bytes of a number.
#[tactic(auto, unfolding(seqs::specs::Bytes::be64))]
pub fn spelled(n: u64) -> [u8; 8]
    ensures { result ≡ be64 n }
{
    n.to_be_bytes()
}

/// The 32 bytes from place `at` on.
#[tactic(auto, unfolding(seqs::specs::Bytes::digest_at))]
pub fn digest_at(s: &[u8], at: usize) -> [u8; 32]
    ensures { result ≡ digest_at s.now at }
{
    bytes_at(s, at)
}

/// The source's bytes at place `at` of the buffer, or nothing where they do not fit.
#[tactic(auto, unfolding(seqs::specs::Over::put_at))]
pub fn put(buffer: &mut [u8], at: usize, source: &[u8])
    ensures { buffer.new ≡ put_at buffer.old at source.now }
{
    if source.len() <= buffer.len() && at <= buffer.len() - source.len() {
        buffer[at..at + source.len()].copy_from_slice(source);
    }
}

/// Whether two digests are the same. The module compares memoranda by this, for a tablet that may try without limit. A
/// comparison that ended at the first byte that differs would tell it, by the time it takes, how far a guess is right, and
/// a memorandum could be found byte by byte. So there is no early exit: the bits that differ are gathered from all 32
/// bytes, and looked at once, at the end. docs/EXCEPTIONS.md, "Time", says what becomes of that in the compiled program.
pub fn same_digest(a: [u8; 32], b: [u8; 32]) -> bool
    ensures { result ≡ same a b }
{
    let mut differ = 0u8;
    for at in 0..32 {
        differ |= a[at] ^ b[at];
    }
    differ == 0
}

/// Whether every byte is 0.
pub fn is_zero(a: [u8; 32]) -> bool
    ensures { result ≡ all_zero a }
{
    a.iter().all(|b| *b == 0)
}
