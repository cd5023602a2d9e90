// The public calls of the grid library. Every call takes any lists of any length and any header, and refuses by name; none has a `requires`.
#![tactic(auto)]

ghost use Rattle.std.specs.Prelude.{◌≡◌};
ghost use Rattle.mesh.specs.Refusal.{refusal};
ghost use Rattle.mesh.specs.Call.{check_call, scan_call, lookup_call, page_call, build_checks, count_call};
ghost use Rattle.header.specs.Headers.{header_of, lent_of, counted_of};
ghost use Rattle.lookup.specs.LookupRows.{found_of};
ghost use Rattle.answer.specs.Answered.{refusal_of};
ghost use Rattle.answer.specs.OutputLists.{wrote_of};
ghost use Rattle.grid.specs.Calls.{Builds, Tapes, count_of};

use answer::{Refusal, refuse_if};
use checker::checks;
use checker::first_checks::first_refusal;
use header::{Header, fresh, with_mark};
use lookup::Leaf;
use tally::COUNT_PLACES;
use tally::full::put_built;

// The header that a build leaves, and what it answers: the number in use.
#[derive(Clone, Copy)]
pub struct BuildOut {
    pub header: Header,
    pub answer: Result<usize, Refusal>,
}

// Whether the table, the values and the header are sound, and the counts are theirs.
pub fn check(
    header: Header,
    table: &[i32],
    values: &[f64],
    counts: &[u32],
    capacity: u32,
) -> Result<(), Refusal>
    ensures { refusal_of result ≡ check_call capacity (counted_of header table.now values.now counts.now) }
{
    checks::check_counted(header, table, values, counts, capacity)
}

// The numbers of the patches of a kind that a walk from a start meets, on levels from and to.
pub fn scan(
    header: Header,
    table: &[i32],
    values: &[f64],
    capacity: u32,
    start: u32,
    order: [u8; 4],
    kind: u32,
    from: i32,
    to: i32,
    out: &mut [u16],
) -> Result<usize, Refusal>
    ensures { wrote_of result out.new ≡ scan_call capacity (lent_of header table.now values.now) start order kind from to out.old }
{
    checks::check(header, table, values, capacity)?;
    let d = header::ground_depth(header);
    scan::scan_out(
        table,
        capacity as usize,
        d,
        start,
        order,
        kind,
        from,
        to,
        out,
    )
}

// The leaf that holds a point, given in 1/4096 of a level-0 cell, and its value.
pub fn lookup(
    header: Header,
    table: &[i32],
    values: &[f64],
    capacity: u32,
    x: u32,
    y: u32,
) -> Result<Leaf, Refusal>
    ensures { found_of result ≡ lookup_call capacity (lent_of header table.now values.now) x y }
{
    checks::check(header, table, values, capacity)?;
    let d = header::ground_depth(header);
    lookup::lookup_out(header, table, values, capacity as usize, d, x, y)
}

// The dossier page.
pub fn page(
    header: Header,
    table: &[i32],
    values: &[f64],
    capacity: u32,
    out: &mut [u8],
) -> Result<usize, Refusal>
    ensures { wrote_of result out.new ≡ page_call capacity (lent_of header table.now values.now) out.old }
{
    checks::check(header, table, values, capacity)?;
    let d = header::ground_depth(header);
    page::pages::write_page(header, table, values, capacity as usize, d, out)
}

// What a build is refused for: the old contents of the lists are not read.
fn build_refusal(
    table: &[i32],
    values: &[f64],
    counts: &[u32],
    capacity: u32,
    header: Header,
) -> Result<(), Refusal>
    ensures { refusal_of result ≡ refusal (build_checks capacity (counted_of header table.now values.now counts.now) (header_of header).grid) }
{
    refuse_if(counts.len() != COUNT_PLACES, Refusal::BadLengths)?;
    first_refusal(header, table, values, capacity)?;
    let d = header::ground_depth(header);
    refuse_if(
        (capacity as usize) < count::patches_in(header, d),
        Refusal::TooFewFree,
    )
}

// The build on the header by value.
pub fn build_core(
    header: Header,
    table: &mut [i32],
    values: &mut [f64],
    counts: &mut [u32],
    capacity: u32,
    columns: u32,
    rows: u32,
    mode: u32,
) -> BuildOut
    ensures { Builds (counted_of header table.old values.old counts.old) capacity columns rows mode (counted_of result.header table.new values.new counts.new) result.answer }
{
    let new = fresh(columns, rows, mode);
    if let Err(refusal) = build_refusal(table, values, counts, capacity, new) {
        return BuildOut {
            header,
            answer: Err(refusal),
        };
    }
    let used = build::build_table(table, values, capacity as usize, new);
    put_built(counts, columns * rows);
    BuildOut {
        header: new,
        answer: Ok(used),
    }
}

// What a tape answers: the requests done, which stand although the next one is refused, what that one is refused for, and its offset or the
// tape's length.
#[derive(Clone, Copy)]
pub struct Taped {
    pub done: usize,
    pub refusal: Option<Refusal>,
    pub offset: usize,
}

#[derive(Clone, Copy)]
pub struct TapeOut {
    pub header: Header,
    pub answer: Taped,
}

// The tape on the header by value.
pub fn tape_core(
    header: Header,
    table: &mut [i32],
    values: &mut [f64],
    counts: &mut [u32],
    capacity: u32,
    tape: &[u8],
) -> TapeOut
    ensures { Tapes (counted_of header table.old values.old counts.old) capacity tape.now (counted_of result.header table.new values.new counts.new) result.answer }
{
    if let Err(refusal) = check(header, table, values, counts, capacity) {
        return TapeOut {
            header,
            answer: Taped {
                done: 0,
                refusal: Some(refusal),
                offset: 0,
            },
        };
    }
    let d = header::ground_depth(header);
    let r = tape::turns::run_tape(
        table,
        values,
        counts,
        capacity as usize,
        d,
        header.mark,
        tape,
    );
    let left = with_mark(header, r.mark);
    TapeOut {
        header: left,
        answer: Taped {
            done: r.done,
            refusal: r.refusal,
            offset: r.offset,
        },
    }
}

// Builds the rectangle of level-0 cells, open or closed to a ring: the header, all rows, all values and all counts.
pub fn build(
    header: &mut Header,
    table: &mut [i32],
    values: &mut [f64],
    counts: &mut [u32],
    capacity: u32,
    columns: u32,
    rows: u32,
    mode: u32,
) -> Result<usize, Refusal>
    ensures { Builds (counted_of header.old table.old values.old counts.old) capacity columns rows mode (counted_of header.new table.new values.new counts.new) result }
{
    let out = build_core(
        *header, table, values, counts, capacity, columns, rows, mode,
    );
    *header = out.header;
    out.answer
}

// Runs a tape of requests, up to the first that is refused.
pub fn tape(
    header: &mut Header,
    table: &mut [i32],
    values: &mut [f64],
    counts: &mut [u32],
    capacity: u32,
    tape: &[u8],
) -> Taped
    ensures { Tapes (counted_of header.old table.old values.old counts.old) capacity tape.now (counted_of header.new table.new values.new counts.new) result }
{
    let out = tape_core(*header, table, values, counts, capacity, tape);
    *header = out.header;
    out.answer
}

// How many leaves of a level have a status, by the list of counts alone.
pub fn count(counts: &[u32], level: u32, status: u32) -> Result<u32, Refusal>
    ensures { count_of result ≡ count_call counts.now level status }
{
    refuse_if(counts.len() != COUNT_PLACES, Refusal::BadLengths)?;
    refuse_if((12 < level) | (2 < status), Refusal::NoSuchCount)?;
    let place = (3 * level + status) as usize;
    Ok(counts[place])
}
