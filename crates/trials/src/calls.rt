// The calls, each on as much of the lists as the numbers say. The sums that are told are those of the whole lists, so that what is not lent is
// seen to stay.
ghost use Rattle.std.specs.Prelude.{◌<◌, ◌≤◌};

use crate::loan::{Loan, keep, lend};
use crate::runs::Call;
use answer::{Refusal, number_of, stop_number};
use header::Header;
use lookup::{Leaf, Reading};
use reports::lists::{Lent, word};
use reports::report::{Mix, end_line, tell, tell_sum, tell_value};
use std::io;
use std::io::Write;

fn check(lines: &mut impl Write, loan: &Loan<'_>) -> io::Result<()> {
    let checked = grid::check(
        loan.header,
        loan.words,
        loan.values,
        loan.counts,
        loan.capacity,
    );
    tell(lines, number_of(checked))
}

fn build(lines: &mut impl Write, loan: &mut Loan<'_>) -> io::Result<()> {
    let built = loan.build();
    tell(lines, number_of(built))?;
    tell(lines, built.unwrap_or(0))
}

fn tape(lines: &mut impl Write, loan: &mut Loan<'_>, bytes: &[u8]) -> io::Result<()> {
    let taped = loan.tape(bytes);
    tell(lines, taped.done)?;
    tell(lines, stop_number(taped.refusal))?;
    tell(lines, taped.offset)
}

fn scan(lines: &mut impl Write, loan: &Loan<'_>, order: [u8; 4]) -> io::Result<()> {
    let [start, kind, from, to, length, filler] = loan.arguments;
    let mut out = [(filler % 65536) as u16; 256];
    let Some(part) = out.get_mut(..length as usize) else {
        return Ok(());
    };
    let wrote = grid::scan(
        loan.header,
        loan.words,
        loan.values,
        loan.capacity,
        start,
        order,
        kind,
        word(u64::from(from)),
        word(u64::from(to)),
        part,
    );
    tell(lines, number_of(wrote))?;
    tell(lines, wrote.unwrap_or(0))?;
    tell_sum(lines, &out)
}

fn look(loan: &Loan<'_>, speed: u32, load: u32) -> Result<Leaf, Refusal> {
    grid::lookup(
        loan.header,
        loan.words,
        loan.values,
        loan.capacity,
        speed,
        load,
    )
}

// The number of a reading, and its value where it has one.
fn told(reading: Reading) -> (u32, Option<f64>) {
    match reading {
        Reading::Blank => (0, None),
        Reading::Measured(x) => (1, Some(x)),
        Reading::Carried(x) => (2, Some(x)),
    }
}

fn lookup(lines: &mut impl Write, loan: &Loan<'_>) -> io::Result<()> {
    let [speed, load, ..] = loan.arguments;
    let found = look(loan, speed, load);
    tell(lines, number_of(found))?;
    let leaf = found.unwrap_or(Leaf::NONE);
    tell(lines, leaf.number)?;
    let (status, value) = told(leaf.reading);
    tell(lines, status)?;
    value.map_or(Ok(()), |x| tell_value(lines, x))
}

// What a lookup found, mixed into a sum.
fn mixed(found: Result<Leaf, Refusal>, sum: u64) -> u64
    ensures { result < 4294967291 }
{
    let leaf = found.unwrap_or(Leaf::NONE);
    let (status, value) = told(leaf.reading);
    let all = status.mix_into(leaf.number.mix_into(number_of(found).mix_into(sum)));
    value.map_or(all, |x| x.mix_into(all))
}

// Lookups of 64 times 64 points, by a step.
fn sweep(lines: &mut impl Write, loan: &Loan<'_>) -> io::Result<()> {
    let [speed, mut load, step, ..] = loan.arguments;
    let mut sum = 1;
    for _ in 0..64 {
        let mut at = speed;
        for _ in 0..64 {
            sum = mixed(look(loan, at, load), sum);
            at = at.wrapping_add(step);
        }
        load = load.wrapping_add(step);
    }
    tell(lines, sum)
}

fn page(lines: &mut impl Write, loan: &Loan<'_>) -> io::Result<()> {
    let [.., length, filler] = loan.arguments;
    let mut out = [(filler % 256) as u8; 16384];
    let Some(part) = out.get_mut(..length as usize) else {
        return Ok(());
    };
    let wrote = grid::page(loan.header, loan.words, loan.values, loan.capacity, part);
    tell(lines, number_of(wrote))?;
    tell(lines, wrote.unwrap_or(0))?;
    tell_sum(lines, &out)
}

// The question, which is lent the counts alone.
fn count(lines: &mut impl Write, loan: &Loan<'_>) -> io::Result<()> {
    let [level, status, ..] = loan.arguments;
    let many = grid::count(loan.counts, level, status);
    tell(lines, number_of(many))?;
    tell(lines, many.unwrap_or(0))
}

// Makes a call, whose items are the first k bytes of b, and writes what it answered.
fn make(
    lines: &mut impl Write,
    loan: &mut Loan<'_>,
    call: Call,
    b: &[u8; 4096],
    k: usize,
) -> io::Result<()>
    requires { k ≤ 4096 }
{
    match call {
        Call::Check => check(lines, loan),
        Call::Build => build(lines, loan),
        Call::Tape => tape(lines, loan, &b[..k]),
        Call::Scan => scan(lines, loan, [b[0], b[1], b[2], b[3]]),
        Call::Lookup => lookup(lines, loan),
        Call::Page => page(lines, loan),
        Call::Sweep => sweep(lines, loan),
        Call::Count => count(lines, loan),
    }
}

// Writes the rest of a line, what the call left.
fn finish(lines: &mut impl Write, lent: &Lent, header: Header) -> io::Result<()> {
    tell(lines, header.columns)?;
    tell(lines, header.rows)?;
    tell(lines, header.mode)?;
    tell(lines, header.mark)?;
    tell_sum(lines, &lent.words)?;
    tell_sum(lines, &lent.values)?;
    tell_sum(lines, &lent.counts)?;
    end_line(lines)
}

// Makes a call, whose items are the first k bytes of b, and writes its line. There is no line where less is there than the numbers say.
pub fn line(
    lines: &mut impl Write,
    lent: &mut Lent,
    call: Call,
    b: &[u8; 4096],
    k: usize,
) -> io::Result<()>
    requires { k ≤ 4096 }
{
    let Some(mut loan) = lend(lent) else {
        return Ok(());
    };
    make(lines, &mut loan, call, b, k)?;
    let header = loan.header;
    finish(lines, lent, header)?;
    keep(lent, header);
    Ok(())
}
