// The kinds of requests, each announced by its byte.
ghost use Rattle.std.specs.Prelude.{◌≡◌};
ghost use Rattle.std.proofs.Math.Option.{some};
ghost use Rattle.kinds.specs.BodyLengths.{body_length, byte_of, Announces};

use answer::Refusal;

#[derive(Clone, Copy, Debug, PartialEq, Eq)]
pub enum Kind {
    Refine = 1,
    Sentence = 2,
    Remove = 3,
    Kill = 4,
    SetValue = 5,
}

impl TryFrom<u8> for Kind {
    type Error = Refusal;

    ghost try_from_gives = { Announces };

    fn try_from(byte: u8) -> Result<Self, Refusal> {
        match byte {
            1 => Ok(Kind::Refine),
            2 => Ok(Kind::Sentence),
            3 => Ok(Kind::Remove),
            4 => Ok(Kind::Kill),
            5 => Ok(Kind::SetValue),
            _ => Err(Refusal::UnknownKind),
        }
    }
}

impl Kind {
    // How many bytes the body behind the kind byte has.
    pub fn body_length(self) -> usize
        ensures { some result ≡ body_length (byte_of self) }
    {
        match self {
            Kind::Refine | Kind::Sentence | Kind::Remove | Kind::Kill => 2,
            Kind::SetValue => 10,
        }
    }
}
