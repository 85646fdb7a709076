// Why a tree text gave no draft or no tree.
ghost use Rattle.std.specs.Prelude.{◌≡◌};
ghost use Rattle.treetext.specs.declared.errors.ReadError.TheVariants.{OutOfMemory, Refused};

use std::alloc::AllocError;
use terms::Refusal;

#[derive(Clone, Copy, Debug, PartialEq, Eq)]
pub enum ReadError {
    // The text is refused, or what it describes.
    Refused(Refusal),
    // There was no memory for the draft.
    OutOfMemory(AllocError),
}

impl From<Refusal> for ReadError {
    ghost from_gives = { λ refusal e. e ≡ Refused refusal };

    fn from(refusal: Refusal) -> ReadError {
        ReadError::Refused(refusal)
    }
}

impl From<AllocError> for ReadError {
    ghost from_gives = { λ want e. e ≡ OutOfMemory want };

    fn from(want: AllocError) -> ReadError {
        ReadError::OutOfMemory(want)
    }
}
