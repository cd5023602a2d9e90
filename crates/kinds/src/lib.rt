// The bytes of a request: the kind that its first byte announces, and the numbers and values in its body.
#![tactic(auto)]

pub mod asked;
pub mod kind;

ghost use Rattle.std.specs.Prelude.{◌≡◌, ◌+◌, ◌≤◌, ◌<◌, length, drop};
ghost use Rattle.mesh.specs.Tape.{field, number_in};
ghost use Rattle.kinds.specs.BodyLengths.{StandsFor};

// The number that k bytes from `at` on are, high byte first.
pub fn high_first(s: &[u8], at: usize, k: usize) -> u64
    requires { (at + k ≤ length s.now) × (k ≤ 8) }
    ensures { result ≡ field at k s.now }
{
    let mut n = 0;
    for byte in &s[at..at + k] {
        n = 256 * n + u64::from(*byte);
    }
    n
}

// The value of a finite pattern; of any other an infinite one, which is refused like it.
pub fn value_of(w: u64) -> f64
    ensures { StandsFor w result }
{
    if w % 0x8000_0000_0000_0000 < 0x7ff0_0000_0000_0000 {
        return f64::from_bits(w);
    }
    f64::from_bits(0x7ff0_0000_0000_0000)
}

// The number in the body behind the kind byte that stands at `at`.
pub fn number_at(tape: &[u8], at: usize) -> usize
    requires { at + 2 < length tape.now }
    ensures { result ≡ number_in (drop (at + 1) tape.now) }
{
    high_first(tape, at + 1, 2) as usize
}

// The value behind that number.
pub fn value_at(tape: &[u8], at: usize) -> f64
    requires { at + 10 < length tape.now }
    ensures { StandsFor (field 2 8 (drop (at + 1) tape.now)) result }
{
    value_of(high_first(tape, at + 3, 8))
}
