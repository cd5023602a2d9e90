// Numbers in the bytes of a run, and how these are read.
ghost use Rattle.std.specs.Prelude.{◌≤◌};
ghost use Rattle.std.specs.Io.{ReadsAtMost};

use std::io;
use std::io::Read;

// Reads until b is full or the input ends, and answers how many bytes there were.
pub fn read_full(input: &mut impl Read, b: &mut [u8]) -> io::Result<usize>
    ensures { ReadsAtMost result b.new }
{
    let mut done = 0;
    while done < b.len() {
        let more = input.read(&mut b[done..])?;
        if more == 0 {
            break;
        }
        done += more;
    }
    Ok(done)
}

// The number that n bytes from k on are, a byte past the end being 0.
pub fn number(b: &[u8], k: usize, n: usize) -> u64
    requires { (k ≤ 1000000) × (n ≤ 65535) }
{
    (k..k + n).fold(0, |high, place| {
        high << 8 | u64::from(b.get(place).copied().unwrap_or(0))
    })
}
