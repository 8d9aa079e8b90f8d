//! Numbers as people write them: decimal digits, without a sign and without a 0 in front.
#![tactic(auto)]

ghost use Rattle.std.specs.Prelude.{◌≡◌, ◌≤◌, ◌++◌, drop, replicate};
ghost use Rattle.decimals.specs.Decimals.{decimal_in, digits_in};
ghost use Rattle.decimals.specs.Spelling.{numeral_of};

/// A number's digits at the end of 20 bytes, which are as many as any has, and where they begin.
// Both stay fields: docs/TRACE.md names `spell`, whose contract speaks of both.
#[derive(Clone, Copy)]
pub struct Numeral {
    pub bytes: [u8; 20],
    pub from: usize,
}

impl Numeral {
    /// The digits.
    pub fn as_slice(&self) -> &[u8]
        ensures { result.now ≡ drop self.now.from self.now.bytes }
    {
        self.bytes.get(self.from..).unwrap_or(&[])
    }
}

/// The number of some digits, whatever stands in front.
fn digits(s: &[u8]) -> Option<u64>
    ensures { result ≡ digits_in s.now }
{
    let mut n: u64 = 0;
    for &c in s {
        if !c.is_ascii_digit() {
            return None;
        }
        n = n.checked_mul(10)?.checked_add((c - b'0') as u64)?;
    }
    Some(n)
}

/// Reads a text that is one number and nothing else, of eight bytes at most.
#[tactic(auto, using(crate::proofs::Decimals::no_digit, crate::proofs::Decimals::one_digit, crate::proofs::Decimals::zero_first, crate::proofs::Decimals::more_digits))]
pub fn read(s: &[u8]) -> Option<u64>
    ensures { result ≡ decimal_in s.now }
{
    match s {
        [] => None,
        [_] => digits(s),
        [b'0', ..] => None,
        _ => digits(s),
    }
}

/// The digits of a number.
pub fn spell(n: u64) -> Numeral
    ensures { result.bytes ≡ replicate result.from 0 ++ numeral_of n }
{
    let mut bytes = [0u8; 20];
    let mut from: usize = 19;
    let mut rest = n;
    // No plainer as a `for` over the places: the rest ends it, and a `for` would need a value after its last place.
    while 10 <= rest {
        bytes[from] = b'0' + (rest % 10) as u8;
        rest /= 10;
        from -= 1;
    }
    bytes[from] = b'0' + rest as u8;
    Numeral { bytes, from }
}
