// What the program `dossier` refuses of its input before the build.
#![tactic(auto)]

ghost use Rattle.std.specs.Prelude.{◌≡◌};
ghost use Rattle.mesh.specs.Refusal.{refusal};
ghost use Rattle.answer.specs.Answered.{refusal_of};
ghost use Rattle.mesh.specs.Program.{input_checks};

use answer::{Refusal, refuse_if};

// The longest input that is accepted.
const LONGEST: usize = 60000;

// What the input is refused for before the build.
pub fn head_refusal(input: &[u8]) -> Result<(), Refusal>
    ensures { refusal_of result ≡ refusal (input_checks input.now) }
{
    refuse_if(LONGEST < input.len(), Refusal::TooLong)?;
    refuse_if(input.len() == 0, Refusal::CutOff)?;
    refuse_if(input[0] != 7, Refusal::UnknownKind)?;
    refuse_if(input.len() < 3, Refusal::CutOff)
}
