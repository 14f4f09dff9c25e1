//! Why a request ends before its answer is made. A refusal is only passed on: each `From` converts the error of a call.

ghost use Rattle.std.specs.Prelude.{◌≡◌};
ghost use Rattle.mds_service.specs.Halts.{answer_of};

use mds_keeper::{Refusal, Stop, Unavailable};
use mds_messages::Answer;
use mds_nem12::Nem12Fault;
use mds_records::FileFault;
use std::alloc::{AllocError, AllocFailed};

/// Why a request ends before its answer is made.
pub(crate) enum Halt {
    /// Its file has a fault.
    File(FileFault),
    /// It breaks a rule.
    Refused(Refusal),
    /// The keeper can't answer, or there was no memory.
    Unavailable,
}

impl From<Unavailable> for Halt {
    ghost use Rattle.mds_service.specs.declared.halt.Halt.TheVariants as halts;

    ghost from_gives = { λ _ halt. halt ≡ halts.Unavailable };

    fn from(_: Unavailable) -> Halt {
        Halt::Unavailable
    }
}

impl From<AllocError> for Halt {
    ghost use Rattle.mds_service.specs.declared.halt.Halt.TheVariants as halts;

    ghost from_gives = { λ _ halt. halt ≡ halts.Unavailable };

    fn from(_: AllocError) -> Halt {
        Halt::Unavailable
    }
}

impl<T: Drop> From<AllocFailed<T>> for Halt {
    ghost use Rattle.mds_service.specs.declared.halt.Halt.TheVariants as halts;

    ghost from_gives = { λ _ halt. halt ≡ halts.Unavailable };

    fn from(_: AllocFailed<T>) -> Halt {
        Halt::Unavailable
    }
}

impl From<Stop> for Halt {
    ghost use Rattle.mds_service.specs.Halts.{of_stop};

    ghost from_gives = { λ stop halt. halt ≡ of_stop stop };

    fn from(stop: Stop) -> Halt {
        match stop {
            Stop::Refused(refusal) => Halt::Refused(refusal),
            Stop::Memory => Halt::Unavailable,
        }
    }
}

impl From<Nem12Fault> for Halt {
    ghost use Rattle.mds_service.specs.Halts.{of_fault};

    ghost from_gives = { λ fault halt. halt ≡ of_fault fault };

    fn from(fault: Nem12Fault) -> Halt {
        match fault {
            Nem12Fault::File(fault) => Halt::File(fault),
            Nem12Fault::Memory => Halt::Unavailable,
        }
    }
}

impl From<Halt> for Answer {
    ghost use Rattle.mds_service.specs.Halts.{answer_of_halt};

    ghost from_gives = { λ halt answer. answer ≡ answer_of_halt halt };

    fn from(halt: Halt) -> Answer {
        // decides: U1: a request can't be answered
        match halt {
            Halt::File(fault) => Answer::File(fault),
            Halt::Refused(refusal) => Answer::Refused(refusal),
            Halt::Unavailable => Answer::Unavailable,
        }
    }
}

/// The answer of a request that was done, or why it wasn't.
pub(crate) fn answer_of(done: Result<Answer, Halt>) -> Answer
    ensures { result ≡ answer_of done }
{
    match done {
        Ok(answer) => answer,
        Err(halt) => Answer::from(halt),
    }
}
