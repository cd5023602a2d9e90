// Words and numbers, put one after the other where there is room for them.
ghost use Rattle.std.specs.Prelude.{◌≡◌, [], ◌∷◌, ◌++◌, ◌+◌, ◌%◌, ◌^◌, length, take};
ghost use Rattle.mesh.specs.Page.{decimal, hex_in, space, total};
ghost use Rattle.lines.specs.Sheets.{HasRoom, PutOn};

use crate::numerals::{digits, hex_digit};

/// A lent list, written up to a place.
#[derive(Drop)]
pub struct Sheet<'a> {
    pub out: &'a mut [u8],
    pub at: usize,
}

// The sum of the bytes of s, wrapping at 2^32.
pub fn sum_of(s: &[u8]) -> u32
    ensures { result ≡ total s.now % 2 ^ 32 }
{
    let mut sum = 0u32;
    for b in s {
        sum = sum.wrapping_add(u32::from(*b));
    }
    sum
}

impl Sheet<'_> {
    #[inline(always)]
    pub fn byte(&mut self, b: u8)
        requires { HasRoom self.old 1 }
        ensures { PutOn self.old (b ∷ []) self.new }
    {
        self.out[self.at] = b;
        self.at += 1;
    }

    #[inline(always)]
    pub fn text(&mut self, s: &[u8])
        requires { HasRoom self.old (length s.now) }
        ensures { PutOn self.old s.now self.new }
    {
        let end = self.at + s.len();
        self.out[self.at..end].copy_from_slice(s);
        self.at = end;
    }

    // The last digit is put first.
    #[inline(always)]
    pub fn decimal(&mut self, x: u32)
        requires { HasRoom self.old (length (decimal x)) }
        ensures { PutOn self.old (decimal x) self.new }
    {
        let start = self.at;
        self.at += digits(x);
        let mut rest = x;
        for i in (start..self.at).rev() {
            self.out[i] = b'0' + (rest % 10) as u8;
            rest /= 10;
        }
    }

    /// A number and the blank after it.
    #[inline(always)]
    pub fn number(&mut self, x: u32)
        requires { HasRoom self.old (length (decimal x) + 1) }
        ensures { PutOn self.old (decimal x ++ space ∷ []) self.new }
    {
        self.decimal(x);
        self.byte(b' ');
    }

    // The 16 hexadecimal digits of x, the last first.
    #[inline(always)]
    pub fn hex(&mut self, x: u64)
        requires { HasRoom self.old 16 }
        ensures { PutOn self.old (hex_in 16 x []) self.new }
    {
        let start = self.at;
        self.at += 16;
        let mut rest = x;
        for i in (start..self.at).rev() {
            self.out[i] = hex_digit(rest % 16);
            rest /= 16;
        }
    }

    /// The sum of the bytes so far, wrapping at 2^32.
    pub fn sum(&self) -> u32
        requires { HasRoom self.now 0 }
        ensures { result ≡ total (take self.now.at self.now.out.now) % 2 ^ 32 }
    {
        let at = self.at;
        sum_of(&self.out[..at])
    }
}
