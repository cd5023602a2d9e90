// One request on a lent table: it is decided first, and a refused one writes nothing. The counts move by the rows as they are before it writes.
#![tactic(auto)]

ghost use Rattle.std.specs.Prelude.{◌≡◌};
ghost use Rattle.mesh.specs.Request.{refine, sentence, remove, kill, set_value};
ghost use Rattle.table.specs.Words.{free_at};
ghost use Rattle.answer.specs.Answered.{refusal_of};
ghost use Rattle.kinds.specs.AskedFor.{request_of};
ghost use Rattle.apply.specs.Drawn.{lists, Pictured};
ghost use Rattle.apply.specs.Applied.{Applied};
ghost use Rattle.apply.specs.Edited.{Ready, Requested};

use answer::Refusal;
use free::map::FreeMap;
use kinds::asked::Request;
use refusals::one_row::{sentence_at, set_at};
use refusals::requests::{
    kill_refusal, refine_refusal, remove_refusal, sentence_refusal, set_refusal,
};
use tally::moves::Rows;

/// A lent table while requests edit it: its words, its values and its leaf counts, with level 0 at that depth, and the map of its free numbers.
#[derive(Drop)]
pub struct EditedTable<'t, 'v, 'c, 'm> {
    pub t: &'t mut [i32],
    pub v: &'v mut [f64],
    pub c: &'c mut [u32],
    pub cap: usize,
    pub d: u32,
    pub map: &'m mut FreeMap,
}

/// Needs no map: no number becomes free, and none is taken. It writes no value and no count.
pub fn sentence(
    t: &mut [i32],
    v: &[f64],
    c: &[u32],
    cap: usize,
    d: u32,
    n: usize,
) -> Result<(), Refusal>
    requires { Pictured cap d (lists t.old v.now c.now) }
    ensures { Applied (sentence n) cap d (lists t.old v.now c.now) (lists t.new v.now c.now) (refusal_of result) × (free_at t.new ≡ free_at t.old) }
{
    sentence_refusal(t, cap, n)?;
    sentence_at(t, n);
    Ok(())
}

/// Needs no map either.
pub fn set_value(
    t: &mut [i32],
    v: &mut [f64],
    c: &mut [u32],
    cap: usize,
    d: u32,
    n: usize,
    x: f64,
) -> Result<(), Refusal>
    requires { Pictured cap d (lists t.old v.old c.old) }
    ensures { Applied (set_value n x) cap d (lists t.old v.old c.old) (lists t.new v.new c.new) (refusal_of result) × (free_at t.new ≡ free_at t.old) }
{
    set_refusal(t, cap, n, x)?;
    Rows { t, v, cap }.valued(c, n, x);
    set_at(t, v, n, x);
    Ok(())
}

impl EditedTable<'_, '_, '_, '_> {
    pub fn refine(&mut self, n: usize) -> Result<(), Refusal>
        requires { Ready self.old }
        ensures { Requested (refine n) self.old self.new (refusal_of result) }
    {
        let cap = self.cap;
        let d = self.d;
        let EditedTable { t, v, c, map, .. } = self;
        let t = &mut **t;
        let v = &mut **v;
        refine_refusal(t, cap, n, map.count())?;
        Rows { t, v, cap }.refined(c, n);
        refine::refine(t, v, cap, map, d, n);
        Ok(())
    }

    pub fn sentence(&mut self, n: usize) -> Result<(), Refusal>
        requires { Ready self.old }
        ensures { Requested (sentence n) self.old self.new (refusal_of result) }
    {
        let cap = self.cap;
        let d = self.d;
        let EditedTable { t, v, c, .. } = self;
        let t = &mut **t;
        let v = &mut **v;
        let c = &mut **c;
        sentence(t, v, c, cap, d, n)
    }

    pub fn remove(&mut self, n: usize) -> Result<(), Refusal>
        requires { Ready self.old }
        ensures { Requested (remove n) self.old self.new (refusal_of result) }
    {
        let cap = self.cap;
        let d = self.d;
        let EditedTable { t, v, c, map, .. } = self;
        let t = &mut **t;
        let v = &mut **v;
        remove_refusal(t, cap, n)?;
        Rows { t, v, cap }.removed(c, n);
        remove::remove(t, v, cap, map, d, n);
        Ok(())
    }

    pub fn kill(&mut self, n: usize) -> Result<(), Refusal>
        requires { Ready self.old }
        ensures { Requested (kill n) self.old self.new (refusal_of result) }
    {
        let cap = self.cap;
        let d = self.d;
        let EditedTable { t, v, c, map, .. } = self;
        let t = &mut **t;
        let v = &mut **v;
        kill_refusal(t, cap, d, n)?;
        Rows { t, v, cap }.killed(c, n);
        kill::kill(t, v, cap, map, d, n);
        Ok(())
    }

    pub fn set_value(&mut self, n: usize, x: f64) -> Result<(), Refusal>
        requires { Ready self.old }
        ensures { Requested (set_value n x) self.old self.new (refusal_of result) }
    {
        let cap = self.cap;
        let d = self.d;
        let EditedTable { t, v, c, .. } = self;
        let t = &mut **t;
        let v = &mut **v;
        let c = &mut **c;
        set_value(t, v, c, cap, d, n, x)
    }

    pub fn request(&mut self, asked: Request) -> Result<(), Refusal>
        requires { Ready self.old }
        ensures { Requested (request_of asked) self.old self.new (refusal_of result) }
    {
        match asked {
            Request::Refine(n) => self.refine(n),
            Request::Sentence(n) => self.sentence(n),
            Request::Remove(n) => self.remove(n),
            Request::Kill(n) => self.kill(n),
            Request::SetValue(n, x) => self.set_value(n, x),
        }
    }
}
