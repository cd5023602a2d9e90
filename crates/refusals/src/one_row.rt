// The two requests that change one row alone.
ghost use Rattle.std.specs.Prelude.{◌≡◌, cond, ◌+◌, ◌*◌, ◌<◌, ◌≤◌, length};
ghost use Rattle.mesh.specs.Picture.{row_words, flags_word};
ghost use Rattle.table.specs.Words.{word_of};
ghost use Rattle.carried.specs.Carried.{put_status, put_amount, measured_as};
ghost use Rattle.refusals.specs.OneRow.{sentence_table};

use carried::{measured, put_carried};
use table::flag_bits::SENTENCED;
use table::words::{FLAGS, flag, word};
use table::writes::put;

// What the flag Sentenced adds to the flags of a row that has it or not.
fn sentence_weight(sentenced: bool) -> u32
    ensures { (result ≤ 4096) × (result ≡ cond sentenced 0 4096) }
{
    if sentenced { 0 } else { 4096 }
}

// Sentences the cell n.
pub fn sentence_at(t: &mut [i32], n: usize)
    requires { (n * row_words + row_words ≤ length t.old) × (word_of t.old n flags_word < 16384) }
    ensures { t.new ≡ sentence_table t.old n }
{
    let x = word(t, n, FLAGS) + sentence_weight(flag(t, SENTENCED, n));
    put(t, n, FLAGS, x);
}

// Sets the value of the cell n, with status 1, measured.
pub fn set_at(t: &mut [i32], v: &mut [f64], n: usize, x: f64)
    requires { (n * row_words + row_words ≤ length t.old) × (n < length v.old) }
    ensures { (t.new ≡ put_status t.old n (measured_as x)) × (v.new ≡ put_amount v.old n (measured_as x)) }
{
    put_carried(t, v, n, measured(x));
}
