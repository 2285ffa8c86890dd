ghost use Rattle.tape.specs.declared.failure.Failure.TheVariants.{NoMemory, Refused};
ghost use Rattle.std.specs.Prelude.{◌≡◌, Some};
ghost use Rattle.tape.specs.Failures.{text_of};

use crate::limits::LONGEST_TAPE;
use journal::Refusal;
use std::alloc::AllocError;
use std::error::Error;
use std::fmt;

/// Why the lines of a tape were not made.
#[derive(Clone, Copy, PartialEq, Eq, Debug)]
pub enum Failure {
    NoMemory,
    Refused(Refusal),
}

impl fmt::Display for Failure {
    ghost output = { λ f. Some (text_of f) };

    fn fmt<W: fmt::Write>(&self, f: &mut fmt::Formatter<W>) -> fmt::Result {
        match self {
            Self::NoMemory => write!(f, "there is not enough memory for the lines of the tape"),
            Self::Refused(_) => write!(f, "the tape is longer than {LONGEST_TAPE} bytes"),
        }
    }
}

impl Error for Failure {}

impl From<AllocError> for Failure {
    ghost from_gives = { λ _ r. r ≡ NoMemory };

    fn from(_e: AllocError) -> Failure {
        Failure::NoMemory
    }
}

impl From<Refusal> for Failure {
    ghost from_gives = { λ e r. r ≡ Refused e };

    fn from(e: Refusal) -> Failure {
        Failure::Refused(e)
    }
}
