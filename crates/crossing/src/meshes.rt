// What C gets of a call that answers nothing but its number: the check of a mesh, and an edit of a store.
ghost use Rattle.std.specs.Prelude.{◌≡◌};
ghost use Rattle.base.specs.Answers.{done_as};
ghost use Rattle.crossing.specs.Crossing.{number_from};

use base::refusal::Refusal;

// The number of the refusal, 0 where the call is not refused. (No `From`: neither `u32` nor `Result` is this crate's.)
pub fn number_of(answer: Result<(), Refusal>) -> u32
    ensures { result ≡ number_from (done_as answer) }
{
    match answer {
        Ok(()) => 0,
        Err(refusal) => u32::from(refusal),
    }
}
