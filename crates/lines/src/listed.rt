// The leaves that lines are made of.
ghost use Rattle.lines.specs.LineRows.{Listed};

/// The leaves of a table of that capacity, by their rows, and the values of the table.
#[derive(Clone, Copy)]
pub struct Leaves<'a> {
    pub t: &'a [i32],
    pub v: &'a [f64],
    pub cap: usize,
    pub rows: &'a [u16],
    pub ghost listed: { Listed t.now v.now cap rows.now },
}
