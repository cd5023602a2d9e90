// Makes the calls of the library that standard input asks for, and writes a line for each: what it answered and what it left.
//
// What is lent is kept from call to call, and at the start all of it is 0: the words, the values, the counts and fourteen numbers, which are columns,
// rows, mode, mark, capacity, the length of the table, the length of the values, the length of the counts, and six arguments of a call. Standard input
// is a list of runs. A run is eight bytes, four numbers of two bytes: its kind, the place where it starts, the bytes of all its items and the bytes of
// one; then come the items. Every number is written high byte first.
//
//     kind 1   words of the table, each as a number: n as itself, -(n + 1) as 2^31 + n
//     kind 2   values, by their bits
//     kind 3   the fourteen numbers
//     kind 4   check
//     kind 5   build, of columns, rows and mode
//     kind 6   tape: the items are its bytes
//     kind 7   scan, from a start, of a kind, of levels from and to (as words), on an output of a length, with a filler: the items are the order
//     kind 8   lookup, of speed and load
//     kind 9   page, on an output of a length, with a filler
//     kind 10  lookups of 64 times 64 points from speed and load on, by a step
//     kind 11  counts
//     kind 12  count, of level and status
//
// A line has what the call answered; then columns, rows, mode and mark as it left them; then the sums by place of all words, all values and all counts.
//
// A run has at most 4,096 bytes of items. Items past the end of what they change are passed over.
//
// Where a read or a write fails, the program ends with that error, and what it wrote before stands.
#![tactic(auto)]

mod calls;
mod loan;
mod runs;

use crate::calls::line;
use crate::runs::Kind;
use reports::input::read_full;
use reports::lists::Lent;
use std::io;
use std::io::{Read, Write};

// A run but for its items.
#[derive(Clone, Copy)]
struct Head {
    kind: Kind,
    start: u16,
    bytes: u16,
    size: u16,
}

// Reads the head of a run; None where there is no further one.
fn read_head(input: &mut impl Read) -> io::Result<Option<Head>> {
    let mut head = [0u8; 8];
    if read_full(input, &mut head)? < 8 {
        return Ok(None);
    }
    Ok(Some(Head {
        kind: Kind::from(u16::from_be_bytes([head[0], head[1]])),
        start: u16::from_be_bytes([head[2], head[3]]),
        bytes: u16::from_be_bytes([head[4], head[5]]),
        size: u16::from_be_bytes([head[6], head[7]]),
    }))
}

// Reads a run's items and carries it out.
fn carry_out(
    input: &mut impl Read,
    lines: &mut impl Write,
    lent: &mut Lent,
    head: Head,
) -> io::Result<()> {
    let mut b = [0u8; 4096];
    let n = usize::from(head.bytes).min(4096);
    read_full(input, &mut b[..n])?;
    match head.kind {
        Kind::Change(list) => {
            lent.change(list, &b, head.start, head.bytes, head.size);
            Ok(())
        }
        Kind::Make(call) => line(lines, lent, call, &b, n),
    }
}

fn main(rt: HostRuntime) -> io::Result<()> {
    let mut input = rt.stdin();
    let mut lines = rt.stdout();
    let mut lent = Lent::new();
    for _ in 0..u64::MAX {
        let Some(head) = read_head(&mut input)? else {
            break;
        };
        carry_out(&mut input, &mut lines, &mut lent, head)?;
    }
    Ok(())
}
