// Scan as a call that passed the first checks: refused by a number, or the numbers written.
#![tactic(auto)]

ghost use Rattle.std.specs.Prelude.{◌≡◌, ◌+◌, ◌≤◌, eqb, leb, length};
ghost use Rattle.mesh.specs.Tools.{any};
ghost use Rattle.mesh.specs.Refusal.{refusal};
ghost use Rattle.mesh.specs.Scan.{permutation};
ghost use Rattle.table.specs.Plain.{Sized};
ghost use Rattle.answer.specs.Answered.{refusal_of};
ghost use Rattle.answer.specs.OutputLists.{wrote_of};
ghost use Rattle.listing.specs.ScanLists.{rows_from};
ghost use Rattle.scan.specs.FourBytes.{four_of};
ghost use Rattle.scan.specs.ScanRows.{start_checks, Few, row_scan_out};
ghost use Rattle.walk.specs.Walkable.{Walkable};

use answer::{Refusal, refuse_if};
use listing::kinds::Kind;
use listing::scans::Scan;
use table::words::{LEVEL, is_taken, raw};
use walk::checked::Rows;

// The order as four bytes; a list of another length is no permutation, and neither are four zeros.
pub fn four(order: &[u8]) -> [u8; 4]
    ensures { result ≡ four_of order.now }
{
    if order.len() != 4 {
        return [0, 0, 0, 0];
    }
    [order[0], order[1], order[2], order[3]]
}

// Whether the word w is one of the order's.
fn names(order: [u8; 4], w: u8) -> bool
    ensures { result ≡ any (eqb w) order }
{
    (w == order[0]) | ((w == order[1]) | ((w == order[2]) | (w == order[3])))
}

// Whether the order names each of the four kids.
fn is_order(order: [u8; 4]) -> bool
    ensures { result ≡ permutation order }
{
    names(order, 1) & (names(order, 2) & (names(order, 3) & names(order, 4)))
}

// The refusals of a scan that its length has no part in.
fn scan_refusal(
    t: &[i32],
    cap: usize,
    n: usize,
    order: [u8; 4],
    kind: u32,
    from: i32,
    to: i32,
) -> Result<(), Refusal>
    requires { Sized t.now cap }
    ensures { refusal_of result ≡ refusal (start_checks t.now cap n order kind from to) }
{
    refuse_if(!is_taken(t, cap, n), Refusal::NoPatch)?;
    let level = raw(t, n, LEVEL);
    let ordered = is_order(order);
    let known = (1 <= kind) & (kind <= 6);
    let unfit = !ordered | (!known | ((from < level) | (to < from)));
    refuse_if(unfit, Refusal::BadScan)
}

// Whether the output is long enough for what the scan lists from the row n on. That is no longer than the table, so it is counted only where the
// output is shorter.
fn has_room(scan: &Scan, n: usize, left: u32, size: usize) -> bool
    requires { (n ≤ scan.now.rows.cap) × (1 ≤ n) × (length (rows_from scan.now left n) ≤ scan.now.rows.cap + 1) }
    ensures { result ≡ leb (length (rows_from scan.now left n)) size }
{
    scan.rows.cap < size || scan.count(n, left, size + 1) <= size
}

// Writes the numbers of the rows that a scan lists, if the output is long enough: that is known before the first is written.
pub fn scan_out(
    t: &[i32],
    cap: usize,
    d: u32,
    start: u32,
    order: [u8; 4],
    kind: u32,
    from: i32,
    to: i32,
    out: &mut [u16],
) -> Result<usize, Refusal>
    requires { Walkable t.now cap d × Few t.now cap d start order kind from to }
    ensures { wrote_of result out.new ≡ row_scan_out t.now cap d start order kind from to out.old }
{
    let n = start as usize;
    scan_refusal(t, cap, n, order, kind, from, to)?;
    let left = to.abs_diff(raw(t, n, LEVEL));
    let kind = Kind::of(kind).unwrap();
    let rows = Rows { t, cap, d };
    let scan = Scan {
        rows,
        order,
        kind,
        from,
    };
    refuse_if(!has_room(&scan, n, left, out.len()), Refusal::TooShort)?;
    Ok(scan.write(n, left, out))
}
