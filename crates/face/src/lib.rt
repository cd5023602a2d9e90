// The calls of `grid` for C and Rust: the header by pointer, a list as a pointer and a length, every answer but the refusal through a pointer, and the
// refusal by its number.
#![tactic(auto)]

ghost use Rattle.header.specs.Headers.{lent_of, counted_of};
ghost use Rattle.face.specs.Outputs.{Builds, Tapes, Checks, Counts, Scans, Looks, Pages};

use answer::{number_of, stop_number};
use header::Header;
use lookup::Leaf;
use scan::four;

// Builds the rectangle of level-0 cells, open or closed to a ring, and says the number in use.
pub fn grid_build(
    header: &mut Header,
    table: &mut [i32],
    values: &mut [f64],
    counts: &mut [u32],
    capacity: u32,
    columns: u32,
    rows: u32,
    mode: u32,
    in_use: &mut u32,
) -> u32
    ensures { Builds (counted_of header.old table.old values.old counts.old) capacity columns rows mode (counted_of header.new table.new values.new counts.new) in_use.new result }
{
    let built = grid::build(header, table, values, counts, capacity, columns, rows, mode);
    *in_use = built.unwrap_or(0) as u32;
    number_of(built)
}

// Runs a tape of requests, up to the first that is refused; says how many are done and where it stopped.
pub fn grid_tape(
    header: &mut Header,
    table: &mut [i32],
    values: &mut [f64],
    counts: &mut [u32],
    capacity: u32,
    tape: &[u8],
    done: &mut usize,
    offset: &mut usize,
) -> u32
    ensures { Tapes (counted_of header.old table.old values.old counts.old) capacity tape.now (counted_of header.new table.new values.new counts.new) done.new offset.new result }
{
    let taped = grid::tape(header, table, values, counts, capacity, tape);
    *done = taped.done;
    *offset = taped.offset;
    stop_number(taped.refusal)
}

// Whether the table, the values and the header are sound, and the counts are theirs: 0 for yes.
pub fn grid_check(
    header: &Header,
    table: &[i32],
    values: &[f64],
    counts: &[u32],
    capacity: u32,
) -> u32
    ensures { Checks (counted_of header.now table.now values.now counts.now) capacity result }
{
    number_of(grid::check(*header, table, values, counts, capacity))
}

// How many leaves of a level have a status, by the counts alone.
pub fn grid_count(counts: &[u32], level: u32, status: u32, count: &mut u32) -> u32
    ensures { Counts counts.now level status count.new result }
{
    let many = grid::count(counts, level, status);
    *count = many.unwrap_or(0);
    number_of(many)
}

// Writes the numbers of the patches of a kind that a walk from a start meets, and says how many.
pub fn grid_scan(
    header: &Header,
    table: &[i32],
    values: &[f64],
    capacity: u32,
    start: u32,
    order: &[u8],
    kind: u32,
    from: i32,
    to: i32,
    out: &mut [u16],
    count: &mut u32,
) -> u32
    ensures { Scans (lent_of header.now table.now values.now) capacity start order.now kind from to out.old out.new count.new result }
{
    let wrote = grid::scan(
        *header,
        table,
        values,
        capacity,
        start,
        four(order),
        kind,
        from,
        to,
        out,
    );
    *count = wrote.unwrap_or(0) as u32;
    number_of(wrote)
}

// The leaf that holds a point, given in 1/4096 of a level-0 cell; its status and its value.
pub fn grid_lookup(
    header: &Header,
    table: &[i32],
    values: &[f64],
    capacity: u32,
    speed: u32,
    load: u32,
    number: &mut u32,
    status: &mut u32,
    value: &mut f64,
) -> u32
    ensures { Looks (lent_of header.now table.now values.now) capacity speed load number.new status.new value.new result }
{
    let found = grid::lookup(*header, table, values, capacity, speed, load);
    let leaf = found.unwrap_or(Leaf::NONE);
    *number = leaf.number;
    *status = leaf.reading.status();
    *value = leaf.reading.amount();
    number_of(found)
}

// Writes the dossier page, and says how many bytes it has.
pub fn grid_page(
    header: &Header,
    table: &[i32],
    values: &[f64],
    capacity: u32,
    out: &mut [u8],
    count: &mut usize,
) -> u32
    ensures { Pages (lent_of header.now table.now values.now) capacity out.old out.new count.new result }
{
    let wrote = grid::page(*header, table, values, capacity, out);
    *count = wrote.unwrap_or(0);
    number_of(wrote)
}
