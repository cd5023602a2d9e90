// Prints for each input that standard input holds what the program `dossier` prints for it, one after the other.
//
// Standard input is a list of cases. A case is four bytes, the length of the input, high byte first, and then the input's bytes.
// A length above 60,001 ends the list.
//
// Where a read or a write fails, the program ends with that error, and what it wrote before stands.
#![tactic(auto)]

use reports::input::read_full;
use std::io;
use std::io::{Read, Write};

// Reads the next case into b, and answers its input; None at the end of the list.
fn read_case<'a>(input: &mut impl Read, b: &'a mut [u8; 60001]) -> io::Result<Option<&'a [u8]>> {
    let mut head = [0u8; 4];
    if read_full(input, &mut head)? < 4 {
        return Ok(None);
    }
    let Some(case) = b.get_mut(..u32::from_be_bytes(head) as usize) else {
        return Ok(None);
    };
    let n = read_full(input, case)?;
    Ok(Some(&case[..n]))
}

// Prints for an input.
fn answer(pages: &mut impl Write, input: &[u8]) -> io::Result<()> {
    let mut out = [0u8; 104000];
    let k = program::print(input, &mut out).unwrap_or(0);
    pages.write_all(&out[..k])
}

fn main(rt: HostRuntime) -> io::Result<()> {
    let mut input = rt.stdin();
    let mut pages = rt.stdout();
    let mut b = [0u8; 60001];
    for _ in 0..u64::MAX {
        let Some(case) = read_case(&mut input, &mut b)? else {
            break;
        };
        answer(&mut pages, case)?;
    }
    Ok(())
}
