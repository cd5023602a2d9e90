// The requests of a tape, one after the other, up to the first that is refused.
ghost use Rattle.std.specs.Prelude.{◌<◌, length};
ghost use Rattle.answer.specs.Answered.{refusal_of, value_or, stop_of};
ghost use Rattle.apply.specs.Drawn.{lists, Pictured};
ghost use Rattle.apply.specs.Edited.{held, Ready, Kept};
ghost use Rattle.tape.specs.Ran.{Turned, Ran};

use answer::Refusal;
use apply::EditedTable;
use free::map::FreeMap;
use header::next_mark;
use kinds::asked::Request;

// The request whose kind byte stands at `at`; the offset of the next kind byte.
fn turn_at(edited: &mut EditedTable, tape: &[u8], at: usize) -> Result<usize, Refusal>
    requires { Ready edited.old × (at < length tape.now) }
    ensures { Turned tape.now at edited.old.cap edited.old.d (held edited.old) (held edited.new) (refusal_of result) (value_or at result) × Kept edited.old edited.new }
{
    let (asked, next) = Request::read(tape, at)?;
    edited.request(asked)?;
    Ok(next)
}

// The requests done, what the next one is refused for, the offset of its kind byte or the tape's length, and the mark.
#[derive(Clone, Copy)]
pub struct Run {
    pub done: usize,
    pub refusal: Option<Refusal>,
    pub offset: usize,
    pub mark: u16,
}

// The map of free numbers is filled once, where it stands, and then lent along the tape: its words are too many to be copied.
pub fn run_tape(
    t: &mut [i32],
    v: &mut [f64],
    c: &mut [u32],
    cap: usize,
    d: u32,
    mark: u16,
    tape: &[u8],
) -> Run
    requires { Pictured cap d (lists t.old v.old c.old) }
    ensures { Ran tape.now cap d mark (lists t.old v.old c.old) (lists t.new v.new c.new) result.done (stop_of result.refusal) result.offset result.mark }
{
    let mut run = Run {
        done: 0,
        refusal: None,
        offset: 0,
        mark,
    };
    let mut map = FreeMap {
        words: [0; 64],
        top: 0,
        count: 0,
    };
    map.load(t, cap);
    let mut edited = EditedTable {
        t,
        v,
        c,
        cap,
        d,
        map: &mut map,
    };
    while run.offset < tape.len() {
        match turn_at(&mut edited, tape, run.offset) {
            Ok(offset) => {
                run.done += 1;
                run.offset = offset;
                run.mark = next_mark(run.mark);
            }
            Err(refusal) => {
                return Run {
                    refusal: Some(refusal),
                    ..run
                };
            }
        }
    }
    run
}
