// Where the numbers of a walk go: into a lent list as far as they fit, or into a count up to a bound.
ghost use Rattle.std.specs.Prelude.{ℕ, List, [], ◌∷◌, ◌++◌};
ghost use Rattle.listing.specs.Sinks.{Wrote, Counted};
ghost use Rattle.listing.specs.SinkLaws.{numbers_none, numbers_more, count_none, count_more};

/// What takes numbers, one after the other.
pub trait Sink {
    // the first took the numbers and became the second
    ghost Took: { Self → List ℕ → Self → Type 0 };

    fn take(&mut self, n: u16)
        ensures { Took self.old (n ∷ []) self.new };

    ghost took_none: { (s : Self) → Took s [] s };

    ghost took_more: { (s e f : Self) (xs ys : List ℕ) → Took s xs e → Took e ys f → Took s (xs ++ ys) f };
}

/// A lent list of numbers, written up to a place.
#[derive(Drop)]
pub struct Numbers<'a> {
    pub out: &'a mut [u16],
    pub at: usize,
}

/// A count up to a bound.
#[derive(Drop)]
pub struct Count {
    pub at: usize,
    pub bound: usize,
}

impl Sink for Numbers<'_> {
    ghost Took = { Wrote };

    ghost took_none = { numbers_none };

    ghost took_more = { numbers_more };

    fn take(&mut self, n: u16) {
        if self.at < self.out.len() {
            self.out[self.at] = n;
            self.at += 1;
        }
    }
}

impl Sink for Count {
    ghost Took = { Counted };

    ghost took_none = { count_none };

    ghost took_more = { count_more };

    fn take(&mut self, _n: u16) {
        if self.at < self.bound {
            self.at += 1;
        }
    }
}
