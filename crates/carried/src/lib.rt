// What a row carries beside its marks, read and written at once: the status of its value, and the value.
#![tactic(auto)]

pub mod values;

ghost use Rattle.std.specs.Prelude.{◌≡◌, ◌+◌, ◌*◌, ◌<◌, ◌≤◌, length};
ghost use Rattle.mesh.specs.Picture.{row_words};
ghost use Rattle.carried.specs.Carried.{carried_of, nothing, measured_as, passed_down, put_status, put_amount, status_of, is_blank, is_measured, is_carried_down, is_zero, is_nothing, same_value};

use crate::values::{is_plus_zero, put_value, same_bits, value};
use table::words::{ROW_WORDS, STATUS, raw};

// The three statuses, by the numbers that stand in a row.
const BLANK: i32 = 0;

const MEASURED: i32 = 1;

const CARRIED_DOWN: i32 = 2;

// The status is the word as it stands: a table that is checked may say any.
#[derive(Clone, Copy)]
pub struct Carried {
    pub status: i32,
    pub value: f64,
}

pub fn carried_at(t: &[i32], v: &[f64], n: usize) -> Carried
    requires { (n * row_words + row_words ≤ length t.now) × (n < length v.now) }
    ensures { result ≡ carried_of t.now v.now n }
{
    Carried {
        status: raw(t, n, STATUS),
        value: value(v, n),
    }
}

pub fn put_carried(t: &mut [i32], v: &mut [f64], n: usize, c: Carried)
    requires { (n * row_words + row_words ≤ length t.old) × (n < length v.old) }
    ensures { (t.new ≡ put_status t.old n c) × (v.new ≡ put_amount v.old n c) }
{
    t[n * ROW_WORDS + STATUS] = c.status;
    put_value(v, n, c.value);
}

// What a blank row carries.
pub fn blank() -> Carried
    ensures { result ≡ nothing }
{
    Carried {
        status: BLANK,
        value: 0.0,
    }
}

// What a cell carries whose value is set.
pub fn measured(x: f64) -> Carried
    ensures { result ≡ measured_as x }
{
    Carried {
        status: MEASURED,
        value: x,
    }
}

// The status as a number, where it is one of the three.
pub fn status(c: Carried) -> u32
    requires { status_of c ≤ 2 }
    ensures { result ≡ status_of c }
{
    c.status as u32
}

pub fn is_blank(c: Carried) -> bool
    ensures { result ≡ is_blank c }
{
    c.status == BLANK
}

pub fn is_measured(c: Carried) -> bool
    ensures { result ≡ is_measured c }
{
    c.status == MEASURED
}

pub fn is_carried_down(c: Carried) -> bool
    ensures { result ≡ is_carried_down c }
{
    c.status == CARRIED_DOWN
}

// What the kids of a refined cell carry: "kids of a blank cell are blank, otherwise carried".
pub fn passed_down(c: Carried) -> Carried
    ensures { result ≡ passed_down c }
{
    if is_blank(c) {
        return blank();
    }
    Carried {
        status: CARRIED_DOWN,
        value: c.value,
    }
}

// Whether beside the status nothing is carried.
pub fn is_zero(c: Carried) -> bool
    ensures { result ≡ is_zero c }
{
    is_plus_zero(c.value)
}

// Whether nothing is carried.
pub fn is_nothing(c: Carried) -> bool
    ensures { result ≡ is_nothing c }
{
    is_blank(c) & is_zero(c)
}

// Whether beside the status both carry the same.
pub fn same_value(a: Carried, b: Carried) -> bool
    ensures { result ≡ same_value a b }
{
    same_bits(a.value, b.value)
}
