// Why a call is refused: each refusal has a name here and a number in every list that leaves the library.
#![tactic(auto)]

ghost use Rattle.std.specs.Prelude.{◌≡◌, cond, Ok, Err};
ghost use Rattle.answer.specs.Answered.{number, refusal_of, stop_of};

/// What a call or a request is refused for, in the order of the numbers.
#[derive(Clone, Copy, Debug, PartialEq, Eq, Hash)]
pub enum Refusal {
    BadLengths = 1,
    BadHeader,
    Unsound,
    CutOff,
    UnknownKind,
    NoPatch,
    NoCell,
    HasKids,
    TopLevel,
    IsSentenced,
    TooFewFree,
    WrongLevel,
    NoKids,
    KidsNotSentenced,
    LastCell,
    NotFinite,
    BadScan,
    TooShort,
    NotFound,
    TooLong,
    CoarserBeside,
    FinerBeside,
    NoSuchCount,
}

impl From<Refusal> for u32 {
    ghost from_gives = { λ r n. n ≡ number r };

    fn from(refusal: Refusal) -> u32 {
        refusal as u32
    }
}

/// The number of the refusal, 0 for none.
pub fn number_of<T: Drop>(answer: Result<T, Refusal>) -> u32
    ensures { result ≡ refusal_of answer }
{
    match answer {
        Ok(_) => 0,
        Err(refusal) => u32::from(refusal),
    }
}

/// The number of the refusal that something stopped at, 0 for none.
pub fn stop_number(stop: Option<Refusal>) -> u32
    ensures { result ≡ stop_of stop }
{
    match stop {
        None => 0,
        Some(refusal) => u32::from(refusal),
    }
}

/// Refuses where the condition holds.
pub fn refuse_if(holds: bool, refusal: Refusal) -> Result<(), Refusal>
    ensures { result ≡ cond holds (Err refusal) (Ok tt) }
{
    if holds { Err(refusal) } else { Ok(()) }
}
