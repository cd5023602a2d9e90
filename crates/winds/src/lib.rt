// "The offset and opposite of each of the eight winds stand in one small table", used for links and kids.
#![tactic(auto)]

ghost use Rattle.std.specs.Prelude.{◌≡◌, ◌<◌};
ghost use Rattle.winds.specs.WindTable.{compass_at, digits_of, KidWind};

// How far east and how far north a wind goes, each one too large, and the place of the opposite wind in the table.
#[derive(Clone, Copy)]
pub struct Compass {
    pub east: u32,
    pub north: u32,
    pub opposite: usize,
}

// NE, SE, SW, NW, N, E, S, W: in the order of a row's words 1 to 8.
const WINDS: [Compass; 8] = [
    Compass {
        east: 2,
        north: 2,
        opposite: 2,
    },
    Compass {
        east: 2,
        north: 0,
        opposite: 3,
    },
    Compass {
        east: 0,
        north: 0,
        opposite: 0,
    },
    Compass {
        east: 0,
        north: 2,
        opposite: 1,
    },
    Compass {
        east: 1,
        north: 2,
        opposite: 6,
    },
    Compass {
        east: 2,
        north: 1,
        opposite: 7,
    },
    Compass {
        east: 1,
        north: 0,
        opposite: 4,
    },
    Compass {
        east: 0,
        north: 1,
        opposite: 5,
    },
];

// The wind of a row's word i + 1.
pub fn wind(i: usize) -> Compass
    requires { i < 8 }
    ensures { result ≡ compass_at i }
{
    WINDS[i]
}

// The places of the kid winds in the table.
pub const NE: usize = 0;

pub const SE: usize = 1;

pub const SW: usize = 2;

pub const NW: usize = 3;

// And of those to the four sides.
pub const N: usize = 4;

pub const E: usize = 5;

pub const S: usize = 6;

pub const W: usize = 7;

// The digits that a kid's column and row end in.
#[derive(Clone, Copy)]
pub struct Digits {
    pub l: u32,
    pub m: u32,
}

// How far a wind goes, halved.
fn halves(c: Compass) -> Digits
    ensures { result ≡ digits_of c }
{
    Digits {
        l: c.east / 2,
        m: c.north / 2,
    }
}

// The digits of the kid in the wind at place i. The table is read at places that are written out: at any other it is copied first.
pub fn kid_digits(i: usize) -> Digits
    requires { i < 4 }
    ensures { (result.l < 2) × (result.m < 2) × KidWind result.l result.m i }
{
    if i == NE {
        return halves(wind(NE));
    }
    if i == SE {
        return halves(wind(SE));
    }
    if i == SW {
        return halves(wind(SW));
    }
    halves(wind(NW))
}

// The place of the kid wind whose kid's column and row end in the digits l and m.
pub fn kid_wind(l: u32, m: u32) -> usize
    requires { (l < 2) × (m < 2) }
    ensures { KidWind l m result }
{
    let east = kid_digits(NE);
    if l == east.l {
        if m == east.m {
            return NE;
        }
        return SE;
    }
    let west = kid_digits(SW);
    if m == west.m {
        return SW;
    }
    NW
}
