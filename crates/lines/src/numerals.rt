// How many decimal digits a number has, and the hexadecimal digits.
ghost use Rattle.std.specs.Prelude.{◌≡◌, ◌<◌, ◌≤◌, length};
ghost use Rattle.mesh.specs.Page.{decimal};
ghost use Rattle.lines.specs.LineRows.{hex_digit};

const HEX: [u8; 16] = *b"0123456789abcdef";

// How many decimal digits x has.
pub fn digits(x: u32) -> usize
    ensures { (result ≤ 10) × (result ≡ length (decimal x)) }
{
    match x {
        0..=9 => 1,
        10..=99 => 2,
        100..=999 => 3,
        1_000..=9_999 => 4,
        10_000..=99_999 => 5,
        100_000..=999_999 => 6,
        1_000_000..=9_999_999 => 7,
        10_000_000..=99_999_999 => 8,
        100_000_000..=999_999_999 => 9,
        _ => 10,
    }
}

pub fn hex_digit(x: u64) -> u8
    requires { x < 16 }
    ensures { result ≡ hex_digit x }
{
    HEX[x as usize]
}
