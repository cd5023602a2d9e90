// The checker of lent lists: yes, or refusal 1, 2 or 3.
ghost use Rattle.std.specs.Prelude.{◌≡◌, IfOk, replicate};
ghost use Rattle.mesh.specs.LeafCounts.{count_places};
ghost use Rattle.answer.specs.Answered.{refusal_of};
ghost use Rattle.mesh.specs.Call.{lent_refusal, check_call};
ghost use Rattle.header.specs.Headers.{lent_of, counted_of};
ghost use Rattle.table.specs.Words.{Fits};
ghost use Rattle.tally.specs.TallyRows.{row_counts};

use crate::first_checks::first_refusal;
use crate::rowwise;
use answer::{Refusal, refuse_if};
use header::Header;
use readable::plain;
use readable::rows::{Levels, Rows};
use tally::COUNT_PLACES;
use tally::full::agree;

// Reads every word, for what that shows: each is a signed number of 32 bits. Nothing comes of it, so no code is left of it either.
fn words_fit(t: &[i32])
    ensures { Fits t.now }
{
    for word in t {
        let _read = *word;
    }
}

// Whether a table is sound: of any lists of any length, any capacity and any header. The mark plays no part. The leaf counts of one that is are taken
// on the way, into a list that is lent, so that nobody holds a second one.
fn sound_counts<'a>(
    header: Header,
    t: &'a [i32],
    v: &'a [f64],
    capacity: u32,
    counts: &mut [u32],
) -> Result<(), Refusal>
    requires { counts.old ≡ replicate count_places 0 }
    ensures refused { refusal_of result ≡ lent_refusal capacity (lent_of header t.now v.now) }
    ensures counted { IfOk result (λ _. counts.new ≡ row_counts t.now v.now capacity capacity) }
{
    first_refusal(header, t, v, capacity)?;
    let cap = capacity as usize;
    words_fit(t);
    let d = header::ground_depth(header);
    refuse_if(!plain(t, cap, d), Refusal::Unsound)?;
    let levels = Levels { t, cap, d };
    let rows = Rows { levels, v, header };
    refuse_if(!rowwise(&rows, counts), Refusal::Unsound)?;
    Ok(())
}

// What scan, lookup and page begin with: they are lent no counts, so those taken on the way are not asked for.
pub fn check(header: Header, t: &[i32], v: &[f64], capacity: u32) -> Result<(), Refusal>
    ensures { refusal_of result ≡ lent_refusal capacity (lent_of header t.now v.now) }
{
    let mut own = [0u32; COUNT_PLACES];
    sound_counts(header, t, v, capacity, &mut own)
}

// The checker, and what a tape begins with: the lent counts are those of the table too.
pub fn check_counted(
    header: Header,
    t: &[i32],
    v: &[f64],
    c: &[u32],
    capacity: u32,
) -> Result<(), Refusal>
    ensures { refusal_of result ≡ check_call capacity (counted_of header t.now v.now c.now) }
{
    refuse_if(c.len() != COUNT_PLACES, Refusal::BadLengths)?;
    let mut own = [0u32; COUNT_PLACES];
    sound_counts(header, t, v, capacity, &mut own)?;
    refuse_if(!agree(c, &own), Refusal::Unsound)
}
