// The kinds of a scan, by name and by number.
ghost use Rattle.std.specs.Prelude.{◌≡◌};
ghost use Rattle.listing.specs.Kinds.{kind_of};

/// What a scan lists.
#[derive(Clone, Copy, Debug, PartialEq, Eq, Hash)]
pub enum Kind {
    Patch = 1,
    Cell,
    Leaf,
    HWall,
    VWall,
    Point,
}

impl Kind {
    /// The kind of that number, if it is one from 1 to 6.
    pub fn of(number: u32) -> Option<Kind>
        ensures { result ≡ kind_of number }
    {
        match number {
            1 => Some(Kind::Patch),
            2 => Some(Kind::Cell),
            3 => Some(Kind::Leaf),
            4 => Some(Kind::HWall),
            5 => Some(Kind::VWall),
            6 => Some(Kind::Point),
            _ => None,
        }
    }
}
