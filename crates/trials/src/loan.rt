// What a call is lent, by the numbers, and the two calls that change it.
ghost use Rattle.std.specs.Prelude.{slice_index};
ghost use Rattle.header.specs.Headers.{counted_of};
ghost use Rattle.grid.specs.Calls.{Builds, Tapes};
ghost use Rattle.trials.specs.Loans.{Kept};

use answer::Refusal;
use grid::Taped;
use header::{Header, fresh, with_mark};
use reports::lists::Lent;

#[derive(Drop)]
pub struct Loan<'a> {
    pub header: Header,
    pub words: &'a mut [i32],
    pub values: &'a mut [f64],
    pub counts: &'a mut [u32],
    pub capacity: u32,
    pub arguments: [u32; 6],
}

impl Loan<'_> {
    // A build of columns, rows and mode, the first three arguments.
    pub fn build(&mut self) -> Result<usize, Refusal>
        ensures built { Builds (counted_of self.old.header self.old.words.now self.old.values.now self.old.counts.now) self.old.capacity (slice_index self.old.arguments 0) (slice_index self.old.arguments 1) (slice_index self.old.arguments 2) (counted_of self.new.header self.new.words.now self.new.values.now self.new.counts.now) result }
        ensures kept { Kept self.old self.new }
    {
        let [columns, rows, mode, ..] = self.arguments;
        grid::build(
            &mut self.header,
            self.words,
            self.values,
            self.counts,
            self.capacity,
            columns,
            rows,
            mode,
        )
    }

    pub fn tape(&mut self, bytes: &[u8]) -> Taped
        ensures taped { Tapes (counted_of self.old.header self.old.words.now self.old.values.now self.old.counts.now) self.old.capacity bytes.now (counted_of self.new.header self.new.words.now self.new.values.now self.new.counts.now) result }
        ensures kept { Kept self.old self.new }
    {
        grid::tape(
            &mut self.header,
            self.words,
            self.values,
            self.counts,
            self.capacity,
            bytes,
        )
    }
}

// As much of each list as the numbers say; None where there is not that much.
pub fn lend(lent: &mut Lent) -> Option<Loan<'_>> {
    let [columns, rows, mode, mark, ..] = lent.numbers;
    let [_, _, _, _, capacity, table, reals, tallies, ..] = lent.numbers;
    let [.., a, b, c, d, e, f] = lent.numbers;
    let Lent {
        words,
        values,
        counts,
        ..
    } = lent;
    Some(Loan {
        header: with_mark(fresh(columns, rows, mode), (mark % 65536) as u16),
        words: words.get_mut(..table as usize)?,
        values: values.get_mut(..reals as usize)?,
        counts: counts.get_mut(..tallies as usize)?,
        capacity,
        arguments: [a, b, c, d, e, f],
    })
}

// Keeps the header that a call left.
pub fn keep(lent: &mut Lent, header: Header) {
    lent.numbers[0] = header.columns;
    lent.numbers[1] = header.rows;
    lent.numbers[2] = header.mode;
    lent.numbers[3] = u32::from(header.mark);
}
