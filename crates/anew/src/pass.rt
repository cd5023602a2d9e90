// A pass over rows: what is worked out anew of each, walls first and then points and cells.
ghost use Rattle.std.specs.Prelude.{◌≡◌, refl, ℕ, ◌≤◌, List, ℤ};
ghost use Rattle.edit_laws.specs.Anew.{wall_row, point_row};
ghost use Rattle.table.specs.Plain.{Plain};
ghost use Rattle.anew.specs.NilRow.{nil-walled, nil-pointed};

use crate::{point_row, wall_row};

// What is worked out anew of a row; row 0 stays.
pub trait Pass: Copy {
    ghost step: { Self → ℕ → List ℤ → ℕ → List ℤ };

    fn row(self, t: &mut [i32], cap: usize, n: usize)
        requires { Plain t.old cap × (n ≤ cap) }
        ensures { (t.new ≡ step self cap t.old n) × Plain t.new cap };

    ghost skips_nil: { (s : Self) (cap : ℕ) (t : List ℤ) → step s cap t 0 ≡ t };
}

// Its walls, in a table whose level 0 is so many levels above the root.
#[derive(Clone, Copy)]
pub struct Walls {
    pub d: u32,
    pub ghost within: { d ≤ 32 },
}

impl Pass for Walls {
    ghost step = { λ s cap t n. wall_row cap s.d t n };

    ghost skips_nil = { λ s cap t. nil-walled cap t refl s.d };

    fn row(self, t: &mut [i32], cap: usize, n: usize) {
        wall_row(t, cap, self.d, n);
    }
}

// Its points and its cell, once the walls around it are right.
#[derive(Clone, Copy)]
pub struct Points;

impl Pass for Points {
    ghost step = { λ s cap t n. point_row cap t n };

    ghost skips_nil = { λ s cap t. nil-pointed cap t refl };

    fn row(self, t: &mut [i32], cap: usize, n: usize) {
        point_row(t, cap, n);
    }
}
