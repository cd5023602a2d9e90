// The table and the values of a build.
#![tactic(auto)]

ghost use Rattle.std.specs.Prelude.{◌≡◌, ◌+◌, ◌*◌, ◌≤◌, length};
ghost use Rattle.header.specs.Headers.{header_of, lent_of};
ghost use Rattle.mesh.specs.Picture.{row_words};
ghost use Rattle.mesh.specs.Build.{numbered};
ghost use Rattle.build.specs.BuildSteps.{Made};
ghost use Rattle.mesh.specs.Call.{Rectangle};

use crate::plan::Plan;
use anew::pass::{Points, Walls};
use header::Header;

pub mod fill;
pub mod ground;
pub mod grow;
pub mod plan;
pub mod seam;

// Writes the whole table and every value; the numbers in use.
pub fn build_table(t: &mut [i32], v: &mut [f64], cap: usize, header: Header) -> usize
    requires { (length t.old ≡ (cap + 1) * row_words) × (length v.old ≡ cap + 1) × (5 ≤ cap) × (cap ≤ 4095) × Rectangle (header_of header).grid × (length (numbered (header_of header).grid) ≤ cap) }
    ensures { Made cap (lent_of header t.new v.new) result }
{
    let d = header::ground_depth(header);
    fill::root_table(t, cap, d);
    let r = grow::grow_levels(t, Plan { cap, header, d });
    seam::seam_rows(t, cap, header, d, r.ground, r.next);
    ground::put_ground(t, header, r.ground, r.next);
    ground::pass_rows(t, cap, Walls { d }, r.ground, r.next);
    ground::pass_rows(t, cap, Points, r.ground, r.next);
    v.fill(0.0);
    r.next - 1
}
