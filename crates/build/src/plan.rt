// What a table is built for.
ghost use Rattle.std.specs.Prelude.{◌≡◌, ◌≤◌};
ghost use Rattle.mesh.specs.Place.{base};
ghost use Rattle.header.specs.Headers.{header_of};

use header::Header;

// Its capacity, its grid, and how many levels stand below level 0.
#[derive(Clone, Copy)]
pub struct Plan {
    pub cap: usize,
    pub header: Header,
    pub d: u32,
    pub ghost depth_is: { d ≡ base (header_of header).grid },
    pub ghost within: { d ≤ 32 },
}
