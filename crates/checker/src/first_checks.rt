// What is lent with a capacity: refusals 1 and 2, which every call begins with.
ghost use Rattle.header.specs.Headers.{lent_of};
ghost use Rattle.answer.specs.Answered.{refusal_of};
ghost use Rattle.checker.specs.FirstChecks.{FirstRefusal};

use answer::{Refusal, refuse_if};
use header::{Header, misfit};
use table::words::ROW_WORDS;

// Refusal 1 or 2. The contents of the lists are not read.
pub fn first_refusal(header: Header, t: &[i32], v: &[f64], capacity: u32) -> Result<(), Refusal>
    ensures { FirstRefusal capacity (lent_of header t.now v.now) (refusal_of result) }
{
    refuse_if(capacity < 5, Refusal::BadLengths)?;
    refuse_if(4095 < capacity, Refusal::BadLengths)?;
    let cap = capacity as usize;
    refuse_if(t.len() != ROW_WORDS * (cap + 1), Refusal::BadLengths)?;
    refuse_if(v.len() != cap + 1, Refusal::BadLengths)?;
    refuse_if(misfit(header), Refusal::BadHeader)
}
