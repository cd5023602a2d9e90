// What is lent beside the table, and the depth of level 0 by it. Every header is made here, so that one with another field is made here too.
#![tactic(auto)]

ghost use Rattle.std.specs.Prelude.{◌≡◌, ◌+◌, ◌%◌, ◌≤◌};
ghost use Rattle.mesh.specs.Place.{base, is_ring, in_rectangle};
ghost use Rattle.mesh.specs.Seam.{last_j};
ghost use Rattle.mesh.specs.Call as Call;
ghost use Rattle.header.specs.Headers.{header_of, fresh_header, with_mark};

// The rectangle of level-0 cells, whether its rows go round, and the edit mark.
#[repr(C)]
#[derive(Clone, Copy)]
pub struct Header {
    pub columns: u32,
    pub rows: u32,
    pub mode: u32,
    pub mark: u16,
}

// The two modes.
pub const OPEN: u32 = 0;

pub const RING: u32 = 1;

// The header of a build.
pub fn fresh(columns: u32, rows: u32, mode: u32) -> Header
    ensures { result ≡ fresh_header columns rows mode }
{
    Header {
        columns,
        rows,
        mode,
        mark: 0,
    }
}

// The header with another mark.
pub fn with_mark(header: Header, mark: u16) -> Header
    ensures { result ≡ with_mark header mark }
{
    Header { mark, ..header }
}

pub fn is_ring(header: Header) -> bool
    ensures { result ≡ is_ring (header_of header).grid }
{
    header.mode == RING
}

// Whether a number is not one of 1 to 32.
fn outside(n: u32) -> bool
    ensures { result ≡ Call.outside 1 32 n }
{
    !(1..=32).contains(&n)
}

// Whether the header is refused 2.
pub fn misfit(header: Header) -> bool
    ensures { result ≡ Call.misfit (header_of header).grid }
{
    let short = is_ring(header) & (header.rows < 3);
    outside(header.columns) | (outside(header.rows) | ((RING < header.mode) | short))
}

// Whether the rectangle has a cell of level 0 in the column i and the row j.
pub fn has_cell(header: Header, i: u32, j: u32) -> bool
    ensures { result ≡ in_rectangle (header_of header).grid i j }
{
    (i < header.columns) & (j < header.rows)
}

// The last row of patches on level 0: in a ring the row after the last cells is row 0.
pub fn last_j(header: Header) -> u32
    requires { 1 ≤ header.rows }
    ensures { (result ≤ header.rows) × (result ≡ last_j (header_of header).grid) }
{
    if is_ring(header) {
        return header.rows - 1;
    }
    header.rows
}

// The depth of level 0: the bit length of the larger of columns and rows.
pub fn ground_depth(header: Header) -> u32
    ensures { result ≡ base (header_of header).grid }
{
    32 - header.columns.max(header.rows).leading_zeros()
}

// "each accepted request adds 1 to the mark, and 65,535 is followed by 0"
pub fn next_mark(mark: u16) -> u16
    ensures { result ≡ (mark + 1) % 65536 }
{
    mark.wrapping_add(1)
}
