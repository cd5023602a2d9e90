// The lines of the leaves.
ghost use Rattle.std.specs.Prelude.{◌≡◌, ◌+◌, ◌%◌, ◌^◌, ◌≤◌, length};
ghost use Rattle.mesh.specs.Page.{letter, total};
ghost use Rattle.carried.specs.Carried.{status_of};
ghost use Rattle.lines.specs.Sheets.{HasRoom, PutOn};
ghost use Rattle.lines.specs.LineRows.{bits_of, line_end};
ghost use Rattle.lines.specs.LeafLines.{line_of_row, all_lines};

use crate::listed::Leaves;
use crate::numerals::digits;
use crate::sheets::Sheet;
use carried::{Carried, carried_at, is_blank, is_measured};
use table::words::{INDEX_I, INDEX_J, LEVEL, word};

fn bits(x: f64) -> u64
    ensures { result ≡ bits_of x }
{
    if carried::values::is_finite(x) {
        return f64::to_bits(x);
    }
    0
}

fn letter_of(c: Carried) -> u8
    ensures { result ≡ letter (status_of c) }
{
    if is_blank(c) {
        b'n'
    } else if is_measured(c) {
        b'm'
    } else {
        b'c'
    }
}

// Puts the letter and the value, which end a line.
#[inline(always)]
fn put_value(sheet: &mut Sheet, c: Carried)
    requires { HasRoom sheet.old 19 }
    ensures { PutOn sheet.old (line_end c) sheet.new }
{
    sheet.byte(letter_of(c));
    sheet.byte(b' ');
    sheet.hex(bits(c.value));
    sheet.byte(b'\n');
}

impl Leaves<'_> {
    // Puts the line of the row n.
    fn put_line(&self, n: usize, sheet: &mut Sheet)
        requires { (n ≤ self.now.cap) × HasRoom sheet.old (length (line_of_row self.now n)) }
        ensures { PutOn sheet.old (line_of_row self.now n) sheet.new }
    {
        sheet.number(n as u32);
        sheet.number(word(self.t, n, LEVEL));
        sheet.number(word(self.t, n, INDEX_I));
        sheet.number(word(self.t, n, INDEX_J));
        put_value(sheet, carried_at(self.t, self.v, n));
    }

    /// Puts the lines of the leaves.
    pub fn put_lines(&self, sheet: &mut Sheet)
        requires { HasRoom sheet.old (length (all_lines self.now)) }
        ensures { PutOn sheet.old (all_lines self.now) sheet.new }
    {
        for n in self.rows {
            self.put_line(*n as usize, sheet);
        }
    }

    // The length of the line of the row n.
    fn line_size(&self, n: usize) -> usize
        requires { n ≤ self.now.cap }
        ensures { (result ≤ 63) × (result ≡ length (line_of_row self.now n)) }
    {
        let level = word(self.t, n, LEVEL);
        let i = word(self.t, n, INDEX_I);
        let j = word(self.t, n, INDEX_J);
        digits(n as u32) + digits(level) + digits(i) + digits(j) + 23
    }

    /// The length of the lines of the leaves.
    pub fn lines_size(&self) -> usize
        ensures { (result ≤ 258048) × (result ≡ length (all_lines self.now)) }
    {
        let mut size = 0;
        for n in self.rows {
            size += self.line_size(*n as usize);
        }
        size
    }

    // The sum of the bytes of the line of the row n.
    fn line_sum(&self, n: usize) -> u32
        requires { n ≤ self.now.cap }
        ensures { result ≡ total (line_of_row self.now n) % 2 ^ 32 }
    {
        let mut line = [0u8; 103];
        let mut sheet = Sheet {
            out: &mut line,
            at: 0,
        };
        self.put_line(n, &mut sheet);
        sheet.sum()
    }

    /// The sum of the bytes of the lines of the leaves, from s on.
    pub fn lines_sum(&self, s: u32) -> u32
        ensures { result ≡ (s + total (all_lines self.now)) % 2 ^ 32 }
    {
        let mut sum = s;
        for n in self.rows {
            sum = sum.wrapping_add(self.line_sum(*n as usize));
        }
        sum
    }
}
