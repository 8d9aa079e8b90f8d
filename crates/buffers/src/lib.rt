//! Bytes at the front of fixed memory, and more behind them.
#![tactic(auto)]

ghost use Rattle.std.specs.Prelude.{◌≡◌, ◌+◌, ◌≤◌, ◌<◌, [], ◌++◌, List, ℕ, length, take};

use std::marker::Model;

/// At most N bytes, which lie in the value itself, with zero bytes behind them.
#[derive(Clone, Copy)]
pub struct Buffer<const N: usize> {
    bytes: [u8; N],
    len: usize,
}

impl<const N: usize> Model for Buffer<N> {
    ghost use Rattle.std.specs.Prelude.{List, ℕ, take};
    ghost use Rattle.buffers.specs.Buffers.{over_zeros, Within, over_zeros_again};

    ghost Value = { List ℕ };

    ghost view = { λ b. take b.len b.bytes };

    ghost invariant = { Within N };

    ghost inverse = { over_zeros N };

    ghost inverse_ok = { over_zeros_again N };
}

impl<const N: usize> Buffer<N> {
    /// None.
    pub fn new() -> Self
        ensures { result ≡ [] }
    {
        Buffer {
            bytes: [0; N],
            len: 0,
        }
    }

    /// More bytes behind those that are there, or none of them where they do not fit.
    pub fn with(mut self, more: &[u8]) -> Self
        ensures fits { length self.entry + length more.now ≤ N → result ≡ self.entry ++ more.now }
        ensures stays { N < length self.entry + length more.now → result ≡ self.entry }
    {
        if more.len() <= N - self.len {
            fields::put(&mut self.bytes, self.len, more);
            self.len += more.len();
        }
        self
    }

    /// The bytes.
    pub fn as_slice(&self) -> &[u8]
        ensures { result.now ≡ self.now }
    {
        &self.bytes[..self.len]
    }
}
