//! Bytes from hexadecimal digits and back: lower-case digits, two to a byte, and 0A (§4.1.2).
#![tactic(auto)]

ghost use Rattle.std.specs.Prelude.{◌≡◌, ◌++◌, ◌+◌, ◌*◌, ◌/◌, ◌%◌, ◌≤◌, ◌<◌, leb, length, get_or, drop};
ghost use Rattle.hexadecimal.specs.Hex.{is_digit, value_of, digit_of, all_digits, bytes_of, line_of};
ghost use Rattle.seqs.specs.Over.{written};

/// Whether a byte is one of the digits 0 to 9 and a to f.
#[tactic(auto, unfolding(crate::specs::Hex::is_digit))]
pub fn is_digit(c: u8) -> bool
    ensures { result ≡ is_digit c }
{
    matches!(c, b'0'..=b'9' | b'a'..=b'f')
}

/// What a digit stands for, and 0 for a byte that is no digit. A number and no Option: `value_of` gives every byte one, and `bytes_of`,
/// which lines and frames go by, reads any bytes so.
#[tactic(auto, unfolding(crate::specs::Hex::value_of, crate::specs::Hex::is_digit))]
pub fn value(c: u8) -> u8
    ensures { result ≡ value_of c }
{
    match c {
        b'0'..=b'9' => c - b'0',
        b'a'..=b'f' => c - b'a' + 10,
        _ => 0,
    }
}

#[tactic(auto, unfolding(crate::specs::Hex::digit_of))]
fn digit(v: u8) -> u8
    requires { v < 16 }
    ensures { result ≡ digit_of v }
{
    if v < 10 { b'0' + v } else { b'a' - 10 + v }
}

/// The digit of the high four bits of a byte.
pub fn high_digit(b: u8) -> u8
    ensures { result ≡ digit_of (b / 16) }
{
    digit(b / 16)
}

/// The digit of the low four bits.
pub fn low_digit(b: u8) -> u8
    ensures { result ≡ digit_of (b % 16) }
{
    digit(b % 16)
}

/// Whether every byte of a line is a digit.
pub fn all_digits(line: &[u8]) -> bool
    ensures { result ≡ all_digits line.now }
{
    line.iter().all(|c| is_digit(*c))
}

/// Byte i of what a line's digits stand for, or 0 past the last.
pub fn byte_at(line: &[u8], i: usize) -> u8
    ensures { result ≡ get_or (bytes_of line.now) i 0 }
{
    if line.len() / 2 <= i {
        return 0;
    }
    16 * value(line[2 * i]) + value(line[2 * i + 1])
}

/// The bytes of the digits over the front of a space that has room for them.
fn fill(line: &[u8], space: &mut [u8])
    requires { length line.now / 2 ≤ length space.old }
    ensures { space.new ≡ bytes_of line.now ++ drop (length line.now / 2) space.old }
{
    for i in 0..line.len() / 2 {
        space[i] = byte_at(line, i);
    }
}

/// The bytes of the digits over the front of the space, or nothing where they do not fit: whether they do.
pub fn read(line: &[u8], space: &mut [u8]) -> bool
    ensures value { result ≡ leb (length line.now / 2) (length space.old) }
    ensures space_after { space.new ≡ written (bytes_of line.now) space.old }
{
    if space.len() < line.len() / 2 {
        return false;
    }
    fill(line, space);
    true
}

/// The digits and 0A over the front of a space that has room for them.
fn spell(bytes: &[u8], space: &mut [u8])
    requires { 2 * length bytes.now + 1 ≤ length space.old }
    ensures { space.new ≡ line_of bytes.now ++ drop (2 * length bytes.now + 1) space.old }
{
    for i in 0..bytes.len() {
        space[2 * i] = high_digit(bytes[i]);
        space[2 * i + 1] = low_digit(bytes[i]);
    }
    space[2 * bytes.len()] = 0x0a;
}

/// The line of the bytes over the front of the space, or nothing where it does not fit: whether it does.
pub fn write(bytes: &[u8], space: &mut [u8]) -> bool
    ensures value { result ≡ leb (2 * length bytes.now + 1) (length space.old) }
    ensures space_after { space.new ≡ written (line_of bytes.now) space.old }
{
    if space.len().div_ceil(2) <= bytes.len() {
        return false;
    }
    spell(bytes, space);
    true
}
