//! Lines that are built in themselves: none takes memory.
ghost use Rattle.std.specs.Prelude.{◌≡◌, ◌+◌, ◌/◌, ◌^◌, ◌<◌, ◌≤◌, [], ◌++◌, length, unsigned_abs};
ghost use Rattle.std.specs.Fmt.{decimal, signed_decimal};
ghost use Rattle.acas_outside.specs.Printed.{millionths_text};

use crate::digits::last_six;
use itoa::{Buffer, write_digits};
use std::marker::Model;

/// The greatest number of bytes of a line that is built in a buffer.
pub const LINE_BYTES: usize = 1_024;

/// A line of at most [`LINE_BYTES`] bytes, which contracts see as the list of its bytes. It has its bytes in itself.
#[derive(Drop)]
pub struct Line {
    room: [u8; LINE_BYTES],
    filled: usize,
}

impl Model for Line {
    ghost use Rattle.std.specs.Prelude.{List, ℕ, ◌≤◌, take};
    ghost use Rattle.acas_outside.specs.declared.line.TheConstants.{LINE_BYTES};

    ghost Value = { List ℕ };

    ghost view = { λ line. take line.filled line.room };

    ghost invariant = { λ line. line.filled ≤ LINE_BYTES };
}

// How many decimal digits a number below 10,000 has.
fn short_count(n: u64) -> usize
    requires { n < 10_000 }
    ensures { result ≡ length (decimal n) }
{
    if n >= 100 {
        if n >= 1_000 { 4 } else { 3 }
    } else if n >= 10 {
        2
    } else {
        1
    }
}

// How many decimal digits a number has.
fn digit_count(n: u64) -> usize
    ensures { result ≡ length (decimal n) }
{
    let mut left = n;
    let mut count = 0;
    while left >= 10_000 {
        left /= 10_000;
        count += 4;
    }
    count + short_count(left)
}

impl Line {
    /// An empty line.
    pub fn new() -> Line
        ensures { result ≡ [] }
    {
        Line {
            room: [0; LINE_BYTES],
            filled: 0,
        }
    }

    /// Makes the line empty.
    pub fn clear(&mut self)
        ensures { self.new ≡ [] }
    {
        self.filled = 0;
    }

    /// Appends bytes.
    #[inline]
    pub fn push(&mut self, bytes: &[u8])
        requires { length self.old + length bytes.now ≤ LINE_BYTES }
        ensures { self.new ≡ self.old ++ bytes.now }
    {
        let end = self.filled + bytes.len();
        self.room[self.filled..end].copy_from_slice(bytes);
        self.filled = end;
    }

    // Appends the decimal text of a number of 64 bits.
    fn digits(&mut self, value: u64)
        requires { length self.old + length (decimal value) ≤ LINE_BYTES }
        ensures { self.new ≡ self.old ++ decimal value }
    {
        let end = self.filled + digit_count(value);
        write_digits(value, &mut self.room, end);
        self.filled = end;
    }

    // Appends the decimal text of a number.
    fn natural(&mut self, value: u128)
        requires { length self.old + length (decimal value) ≤ LINE_BYTES }
        ensures { self.new ≡ self.old ++ decimal value }
    {
        if value < 1 << 64 {
            self.digits(value as u64);
        } else {
            let mut buffer = Buffer::new();
            self.push(buffer.format(value).as_bytes());
        }
    }

    /// Appends the decimal text of a whole number: a `-` where it is below 0, and its digits without leading zeros.
    pub fn number(&mut self, value: i128)
        requires { length self.old + length (signed_decimal value) ≤ LINE_BYTES }
        ensures { self.new ≡ self.old ++ signed_decimal value }
    {
        if value < 0 {
            self.push(b"-");
        }
        self.natural(value.unsigned_abs());
    }

    /// Appends the text of a number of millionths: a `-` where it is below 0, the whole units without leading zeros, a
    /// point and six digits.
    pub fn millionths(&mut self, value: i128)
        requires { length self.old + length (millionths_text value) ≤ LINE_BYTES }
        ensures { self.new ≡ self.old ++ millionths_text value }
    {
        let magnitude = value.unsigned_abs();
        if value < 0 {
            self.push(b"-");
        }
        self.natural(magnitude / 1_000_000);
        self.push(b".");
        self.push(&last_six(magnitude));
    }

    /// The bytes of the line.
    pub fn bytes(&self) -> &[u8]
        ensures { result.now ≡ self.now }
    {
        &self.room[..self.filled]
    }
}
