ghost use Rattle.std.specs.Prelude.{◌≡◌};
ghost use Rattle.session.specs.declared.error.CommandError.TheVariants as failed;

use refusal::Refusal;
use std::alloc::AllocError;

/// Why a command has no answer.
#[derive(Clone, Copy, PartialEq, Eq, Debug)]
pub enum CommandError {
    Refused(Refusal),
    /// There is no memory for a new document.
    OutOfMemory(AllocError),
}

impl From<Refusal> for CommandError {
    ghost from_gives = { λ r e. e ≡ failed.Refused r };

    fn from(refusal: Refusal) -> CommandError {
        CommandError::Refused(refusal)
    }
}

impl From<AllocError> for CommandError {
    ghost from_gives = { λ a e. e ≡ failed.OutOfMemory a };

    fn from(error: AllocError) -> CommandError {
        CommandError::OutOfMemory(error)
    }
}
