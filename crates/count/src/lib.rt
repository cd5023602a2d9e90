// How many patches the full rectangle has.
#![tactic(auto)]

ghost use Rattle.std.specs.Prelude.{◌≡◌, ◌≤◌, length};
ghost use Rattle.mesh.specs.Place.{base};
ghost use Rattle.header.specs.Headers.{header_of};
ghost use Rattle.mesh.specs.Build.{numbered};
ghost use Rattle.mesh.specs.Call.{Rectangle};
ghost use Rattle.number_laws.specs.Sizes.{level_size};

use header::{Header, last_j};

// The patches so many levels below level 0.
fn level_size(header: Header, up: u32) -> usize
    requires { (header.columns ≤ 32) × (1 ≤ header.rows) × (header.rows ≤ 32) × (up ≤ 6) }
    ensures { (result ≤ 1089) × (result ≡ level_size (header_of header).grid up) }
{
    let a = (header.columns >> up) + 1;
    let b = (last_j(header) >> up) + 1;
    (a * b) as usize
}

// The patches of every level, from level 0 down to the root at depth 0.
pub fn patches_in(header: Header, d: u32) -> usize
    requires { Rectangle (header_of header).grid × (d ≡ base (header_of header).grid) }
    ensures { result ≡ length (numbered (header_of header).grid) }
{
    let mut sum = 0;
    for up in 0..=d {
        sum += level_size(header, up);
    }
    sum
}
