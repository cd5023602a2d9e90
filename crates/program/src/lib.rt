// What the program `dossier` prints for its input, as a call on two lists: the page of the grid after the tape, or the line of the refusal.
#![tactic(auto)]

ghost use Rattle.std.specs.Prelude.{◌≡◌, ◌*◌, ◌≤◌, length};
ghost use Rattle.mesh.specs.Picture.{row_words};
ghost use Rattle.mesh.specs.LeafCounts.{count_places};
ghost use Rattle.mesh.specs.Refusal.{refusal};
ghost use Rattle.mesh.specs.Program.{refused_line, program_call, input_checks};
ghost use Rattle.mesh.specs.Call.{writing};
ghost use Rattle.lines.specs.Sheets.{HasRoom, PutOn};
ghost use Rattle.answer.specs.Answered.{number};
ghost use Rattle.answer.specs.OutputLists.{wrote_of};

use answer::{Refusal, refuse_if};
use header::{OPEN, fresh};
use input::head_refusal;
use lines::numerals::digits;
use lines::sheets::Sheet;
use table::words::ROW_WORDS;
use tally::COUNT_PLACES;

const CAPACITY: u32 = 1000;

// The words and the values of a table of that capacity.
const WORDS: usize = ROW_WORDS * 1001;

const VALUES: usize = 1001;

// Puts the line `refused n at o`.
fn put_refused(sheet: &mut Sheet, n: u32, o: u32)
    requires { HasRoom sheet.old (length (refused_line n o)) }
    ensures { PutOn sheet.old (refused_line n o) sheet.new }
{
    sheet.text(b"refused ");
    sheet.number(n);
    sheet.text(b"at ");
    sheet.decimal(o);
    sheet.byte(b'\n');
}

// Writes that line, if the output is long enough.
fn write_refused(out: &mut [u8], refusal: Refusal, o: usize) -> Result<usize, Refusal>
    requires { o ≤ 60003 }
    ensures { wrote_of result out.new ≡ writing (refused_line (number refusal) o) out.old }
{
    let n = u32::from(refusal);
    let offset = o as u32;
    refuse_if(
        out.len() < digits(n) + digits(offset) + 13,
        Refusal::TooShort,
    )?;
    let mut sheet = Sheet { out, at: 0 };
    put_refused(&mut sheet, n, offset);
    Ok(sheet.at)
}

// Prints on a table, values and counts of their lengths, whose old contents do not matter.
fn print_on(
    input: &[u8],
    table: &mut [i32],
    values: &mut [f64],
    counts: &mut [u32],
    out: &mut [u8],
) -> Result<usize, Refusal>
    requires { (refusal (input_checks input.now) ≡ 0) × (length table.old ≡ row_words * 1001) × (length values.old ≡ 1001) × (length counts.old ≡ count_places) }
    ensures { wrote_of result out.new ≡ program_call input.now out.old }
{
    let mut header = fresh(0, 0, OPEN);
    let columns = u32::from(input[1]);
    let rows = u32::from(input[2]);
    let built = grid::build(
        &mut header,
        table,
        values,
        counts,
        CAPACITY,
        columns,
        rows,
        OPEN,
    );
    if let Err(refusal) = built {
        return write_refused(out, refusal, 0);
    }
    let taped = grid::tape(&mut header, table, values, counts, CAPACITY, &input[3..]);
    if let Some(refusal) = taped.refusal {
        return write_refused(out, refusal, 3 + taped.offset);
    }
    grid::page(header, table, values, CAPACITY, out)
}

// Prints what the program prints for the input, if the output is long enough.
pub fn print(input: &[u8], out: &mut [u8]) -> Result<usize, Refusal>
    ensures { wrote_of result out.new ≡ program_call input.now out.old }
{
    if let Err(refusal) = head_refusal(input) {
        return write_refused(out, refusal, 0);
    }
    let mut table = [0i32; WORDS];
    let mut values = [0.0f64; VALUES];
    let mut counts = [0u32; COUNT_PLACES];
    print_on(input, &mut table, &mut values, &mut counts, out)
}
