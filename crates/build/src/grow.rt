// The patches of the full rectangle, level by level from the root.
ghost use Rattle.std.specs.Prelude.{◌≡◌, ◌+◌, ◌-◌, ◌<◌, ◌≤◌};
ghost use Rattle.header.specs.Headers.{header_of};
ghost use Rattle.winds.specs.WindTable.{kid_l, kid_m};
ghost use Rattle.table.specs.Plain.{Plain, Sized};
ghost use Rattle.edit_laws.specs.Built.{in_full, grow, grow_kids, grow_level};
ghost use Rattle.build.specs.BuildSteps.{growth, in_turn, Reached};
ghost use Rattle.edit_laws.specs.BuildSoFar.{Able, KidsToGrow, LevelToGrow, LevelsToGrow};

use crate::plan::Plan;
use header::{Header, last_j};
use patch::links::link_in;
use table::words::{INDEX_I, INDEX_J, word};
use winds::{NE, NW, SE, SW, kid_digits};

// Whether a place is a patch of the full rectangle, so many levels below level 0.
fn in_full(header: Header, up: u32, i: u32, j: u32) -> bool
    requires { (up < 32) × (1 ≤ header.rows) }
    ensures { result ≡ in_full (header_of header).grid up i j }
{
    (i <= header.columns >> up) & (j <= last_j(header) >> up)
}

// The kid of the row p in the wind at place w of the table of winds, where the rectangle has it; the next number.
fn grow_kid(t: &mut [i32], plan: Plan, up: u32, p: usize, w: usize, next: usize) -> usize
    requires { Plain t.old plan.cap × (w < 4) × Able (header_of plan.header).grid plan.cap plan.d up p (kid_l w) (kid_m w) (growth t.old next) }
    ensures { growth t.new result ≡ grow (header_of plan.header).grid plan.cap plan.d up p (kid_l w) (kid_m w) (growth t.old next) }
{
    let kid = kid_digits(w);
    let i = 2 * word(t, p, INDEX_I) + kid.l;
    let j = 2 * word(t, p, INDEX_J) + kid.m;
    if !in_full(plan.header, up, i, j) {
        return next;
    }
    link_in(t, plan.cap, plan.d, p, kid.l, kid.m, next);
    next + 1
}

// The four kids of the row p, in the order SW, NW, SE, NE.
fn grow_kids(t: &mut [i32], plan: Plan, up: u32, p: usize, next: usize) -> usize
    requires { Sized t.old plan.cap × KidsToGrow (header_of plan.header).grid plan.cap up p in_turn (growth t.old next) }
    ensures { growth t.new result ≡ grow_kids (header_of plan.header).grid plan.cap plan.d up p (growth t.old next) }
{
    let a = grow_kid(t, plan, up, p, SW, next);
    let b = grow_kid(t, plan, up, p, NW, a);
    let c = grow_kid(t, plan, up, p, SE, b);
    grow_kid(t, plan, up, p, NE, c)
}

// The kids of the rows from p up to the next number.
fn grow_level(t: &mut [i32], plan: Plan, up: u32, p: usize, next: usize) -> usize
    requires { Sized t.old plan.cap × (p ≤ next) × (next ≤ plan.cap + 1) × LevelToGrow (header_of plan.header).grid plan.cap up (next - p) p (growth t.old next) }
    ensures { growth t.new result ≡ grow_level (header_of plan.header).grid plan.cap plan.d up (next - p) p (growth t.old next) }
{
    let mut k = next;
    for q in p..next {
        k = grow_kids(t, plan, up, q, k);
    }
    k
}

// The first number of level 0, and the next number.
#[derive(Clone, Copy)]
pub struct Reach {
    pub ground: usize,
    pub next: usize,
}

// Every level, from the root under number 1 on.
pub fn grow_levels(t: &mut [i32], plan: Plan) -> Reach
    requires { Sized t.old plan.cap × LevelsToGrow (header_of plan.header).grid plan.cap plan.d 1 (growth t.old 2) }
    ensures { Reached (header_of plan.header).grid plan.cap plan.d (growth t.old 2) (growth t.new result.next) result.ground }
{
    let mut r = Reach { ground: 1, next: 2 };
    for up in (0..plan.d).rev() {
        let next = grow_level(t, plan, up, r.ground, r.next);
        r = Reach {
            ground: r.next,
            next,
        };
    }
    r
}
