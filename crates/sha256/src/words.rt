//! The functions on 32-bit words of FIPS 180-4, section 4.1.2. The four sigmas stay four, though two and two differ in numbers only: the
//! standard has them by name, each with its numbers, and so has specs/Words.antt.
ghost use Rattle.std.specs.Prelude.{◌≡◌};
ghost use Rattle.sha256.specs.Words.{Ch, Maj, big_sigma0, big_sigma1, small_sigma0, small_sigma1};

pub(crate) fn choose(x: u32, y: u32, z: u32) -> u32
    ensures { result ≡ Ch x y z }
{
    (x & y) ^ (!x & z)
}

pub(crate) fn majority(x: u32, y: u32, z: u32) -> u32
    ensures { result ≡ Maj x y z }
{
    (x & y) ^ (x & z) ^ (y & z)
}

#[tactic(auto, unfolding(crate::specs::Words::big_sigma0))]
pub(crate) fn big0(x: u32) -> u32
    ensures { result ≡ big_sigma0 x }
{
    x.rotate_right(2) ^ x.rotate_right(13) ^ x.rotate_right(22)
}

#[tactic(auto, unfolding(crate::specs::Words::big_sigma1))]
pub(crate) fn big1(x: u32) -> u32
    ensures { result ≡ big_sigma1 x }
{
    x.rotate_right(6) ^ x.rotate_right(11) ^ x.rotate_right(25)
}

#[tactic(auto, unfolding(crate::specs::Words::small_sigma0))]
pub(crate) fn small0(x: u32) -> u32
    ensures { result ≡ small_sigma0 x }
{
    x.rotate_right(7) ^ x.rotate_right(18) ^ (x >> 3)
}

#[tactic(auto, unfolding(crate::specs::Words::small_sigma1))]
pub(crate) fn small1(x: u32) -> u32
    ensures { result ≡ small_sigma1 x }
{
    x.rotate_right(17) ^ x.rotate_right(19) ^ (x >> 10)
}
