// The lines that are written: numbers, and of a list its sum by place.
ghost use Rattle.std.specs.Prelude.{◌<◌};

use std::fmt::Display;
use std::io;
use std::io::Write;
use std::num::f64_to_bits_with_nan;
use table::words::coded;

// An item of a sum that tells lists apart in which an item changed or moved.
pub trait Mix: Copy {
    fn mix_into(self, sum: u64) -> u64
        ensures { result < 4294967291 };
}

impl Mix for u32 {
    fn mix_into(self, sum: u64) -> u64 {
        (sum % 4294967291 * 65599 + u64::from(self)) % 4294967291
    }
}

impl Mix for u16 {
    fn mix_into(self, sum: u64) -> u64 {
        u32::from(self).mix_into(sum)
    }
}

impl Mix for u8 {
    fn mix_into(self, sum: u64) -> u64 {
        u32::from(self).mix_into(sum)
    }
}

impl Mix for i32 {
    fn mix_into(self, sum: u64) -> u64 {
        coded(self).mix_into(sum)
    }
}

impl Mix for f64 {
    fn mix_into(self, sum: u64) -> u64 {
        let w = f64_to_bits_with_nan(self);
        let high = (w / 0x1_0000_0000) as u32;
        let low = (w % 0x1_0000_0000) as u32;
        low.mix_into(high.mix_into(sum))
    }
}

// The sum of a list by place.
fn sum<T: Mix>(items: &[T]) -> u64 {
    items.iter().fold(1, |so_far, item| item.mix_into(so_far))
}

pub fn tell(lines: &mut impl Write, number: impl Display + Drop) -> io::Result<()> {
    write!(lines, "{number} ")
}

pub fn tell_value(lines: &mut impl Write, x: f64) -> io::Result<()> {
    let w = f64_to_bits_with_nan(x);
    write!(lines, "{w:016x} ")
}

pub fn tell_sum<T: Mix>(lines: &mut impl Write, items: &[T]) -> io::Result<()> {
    tell(lines, sum(items))
}

pub fn end_line(lines: &mut impl Write) -> io::Result<()> {
    writeln!(lines)
}
