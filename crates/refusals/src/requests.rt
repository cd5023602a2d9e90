// What each kind of request is refused for, by the checks of 01 and of 02, No. 1, in their order.
ghost use Rattle.std.specs.Prelude.{◌≡◌, [], ◌∷◌, ◌≤◌};
ghost use Rattle.mesh.specs.Refusal.{refusal};
ghost use Rattle.answer.specs.Answered.{refusal_of};
ghost use Rattle.table.specs.Plain.{Plain, Sized};
ghost use Rattle.free.specs.Free.{free_total};
ghost use Rattle.refusals.specs.Decide.{row6, row7, refine_refusal, sentence_refusal, remove_refusal, kill_refusal, set_refusal};

use answer::{Refusal, refuse_if};
use asks::{finer_round, has_kids, kids_sentenced, lack_count, other_under};
use carried::values::is_finite;
use table::flag_bits::{COMPLETE, GRN_CELL, SENTENCED};
use table::plain;
use table::words::{LEVEL, flag, is_taken, says};

// The two checks that every kind begins with: the number is that of a patch, and the patch is a cell.
fn cell_refusal(t: &[i32], cap: usize, n: usize) -> Result<(), Refusal>
    requires { Sized t.now cap }
    ensures { refusal_of result ≡ refusal (row6 t.now cap n ∷ row7 t.now cap n ∷ []) }
{
    refuse_if(!is_taken(t, cap, n), Refusal::NoPatch)?;
    refuse_if(!flag(t, COMPLETE, n), Refusal::NoCell)
}

// With the count of the free numbers.
pub fn refine_refusal(t: &[i32], cap: usize, n: usize, spare: usize) -> Result<(), Refusal>
    requires { Plain t.now cap × (spare ≡ free_total t.now) }
    ensures { refusal_of result ≡ refine_refusal t.now cap n }
{
    cell_refusal(t, cap, n)?;
    refuse_if(has_kids(t, cap, n), Refusal::HasKids)?;
    refuse_if(says(t, n, LEVEL, 12), Refusal::TopLevel)?;
    refuse_if(plain::flag(t, cap, SENTENCED, n), Refusal::IsSentenced)?;
    let coarser_beside = plain::flag(t, cap, GRN_CELL, n);
    let too_few_free = spare < lack_count(t, cap, n);
    refuse_if(coarser_beside, Refusal::CoarserBeside)?;
    refuse_if(too_few_free, Refusal::TooFewFree)
}

pub fn sentence_refusal(t: &[i32], cap: usize, n: usize) -> Result<(), Refusal>
    requires { Sized t.now cap }
    ensures { refusal_of result ≡ sentence_refusal t.now cap n }
{
    cell_refusal(t, cap, n)?;
    refuse_if(has_kids(t, cap, n), Refusal::HasKids)?;
    refuse_if(says(t, n, LEVEL, 0), Refusal::WrongLevel)
}

pub fn remove_refusal(t: &[i32], cap: usize, n: usize) -> Result<(), Refusal>
    requires { Plain t.now cap }
    ensures { refusal_of result ≡ remove_refusal t.now cap n }
{
    cell_refusal(t, cap, n)?;
    refuse_if(!has_kids(t, cap, n), Refusal::NoKids)?;
    refuse_if(!kids_sentenced(t, cap, n), Refusal::KidsNotSentenced)?;
    refuse_if(finer_round(t, cap, n), Refusal::FinerBeside)
}

// With the depth of level 0.
pub fn kill_refusal(t: &[i32], cap: usize, d: u32, n: usize) -> Result<(), Refusal>
    requires { Sized t.now cap × (1 ≤ cap) × (d ≤ 32) }
    ensures { refusal_of result ≡ kill_refusal t.now cap d n }
{
    cell_refusal(t, cap, n)?;
    refuse_if(!says(t, n, LEVEL, 0), Refusal::WrongLevel)?;
    refuse_if(has_kids(t, cap, n), Refusal::HasKids)?;
    refuse_if(!other_under(t, cap, n, d, 1), Refusal::LastCell)
}

pub fn set_refusal(t: &[i32], cap: usize, n: usize, x: f64) -> Result<(), Refusal>
    requires { Sized t.now cap }
    ensures { refusal_of result ≡ set_refusal t.now cap n x }
{
    cell_refusal(t, cap, n)?;
    refuse_if(has_kids(t, cap, n), Refusal::HasKids)?;
    refuse_if(!is_finite(x), Refusal::NotFinite)
}
