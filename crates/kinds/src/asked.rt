// A request as it is read from a tape.
use crate::kind::Kind;
use crate::{number_at, value_at};
use answer::{Refusal, refuse_if};

#[derive(Clone, Copy, Debug, PartialEq)]
pub enum Request {
    Refine(usize),
    Sentence(usize),
    Remove(usize),
    Kill(usize),
    SetValue(usize, f64),
}

impl Request {
    ghost use Rattle.std.specs.Prelude.{◌<◌, length, MatchResult};
    ghost use Rattle.kinds.specs.AskedFor.{Announced, Unread};

    // The request whose kind byte stands at `at`, and the offset of the next kind byte.
    pub fn read(tape: &[u8], at: usize) -> Result<(Request, usize), Refusal>
        requires { at < length tape.now }
        ensures { MatchResult result (λ r. Announced tape.now at r.0 r.1) (λ e. Unread tape.now at e) }
    {
        let kind = Kind::try_from(tape[at])?;
        let len = kind.body_length();
        refuse_if(tape.len() - at <= len, Refusal::CutOff)?;
        let n = number_at(tape, at);
        let request = match kind {
            Kind::Refine => Request::Refine(n),
            Kind::Sentence => Request::Sentence(n),
            Kind::Remove => Request::Remove(n),
            Kind::Kill => Request::Kill(n),
            Kind::SetValue => Request::SetValue(n, value_at(tape, at)),
        };
        Ok((request, at + 1 + len))
    }
}
