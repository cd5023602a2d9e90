// What a scan walks over and lists.
ghost use Rattle.std.specs.Prelude.{T};
ghost use Rattle.mesh.specs.Tools.{all};
ghost use Rattle.walk.specs.WalkRows.{kids_word};

use crate::kinds::Kind;
use walk::checked::Rows;

/// A scan of the rows of a table: the order of the kids, the kind, and the level from which rows are listed.
#[derive(Clone, Copy)]
pub struct Scan<'a> {
    pub rows: Rows<'a>,
    pub order: [u8; 4],
    pub kind: Kind,
    pub from: i32,
    pub ghost kids: { T (all kids_word order) },
}
