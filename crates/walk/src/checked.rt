// The rows that a walk goes down.
ghost use Rattle.walk.specs.Walkable.{Walkable};

/// The rows of a checked table of that capacity, with level 0 at depth d.
#[derive(Clone, Copy)]
pub struct Rows<'a> {
    pub t: &'a [i32],
    pub cap: usize,
    pub d: u32,
    pub ghost walkable: { Walkable t.now cap d },
}
