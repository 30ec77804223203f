//! Why an operation is not done.

ghost use Rattle.std.specs.Prelude.{◌≡◌};
ghost use Rattle.px_core.specs.declared.fault.Fault.TheVariants.{Memory, Refused};
ghost use Rattle.px_core.specs.Faults.{of_book, of_push};

use genbook::BookFault;
use px_ops::Refusal;
use router::PushFault;
use std::alloc::AllocError;

/// Why an operation is not done.
#[derive(Drop)]
pub(crate) enum Fault {
    /// It is refused.
    Refused(Refusal),
    /// Memory wants.
    Memory,
}

impl From<AllocError> for Fault {
    ghost from_gives = { λ _ fault. fault ≡ Memory };

    fn from(_: AllocError) -> Fault {
        Fault::Memory
    }
}

impl From<Refusal> for Fault {
    ghost from_gives = { λ refusal fault. fault ≡ Refused refusal };

    fn from(refusal: Refusal) -> Fault {
        Fault::Refused(refusal)
    }
}

impl From<PushFault> for Fault {
    ghost from_gives = { λ cause fault. fault ≡ of_push cause };

    fn from(cause: PushFault) -> Fault {
        match cause {
            PushFault::Refused(refusal) => Fault::Refused(refusal),
            PushFault::Memory => Fault::Memory,
        }
    }
}

impl From<BookFault> for Fault {
    ghost from_gives = { λ cause fault. fault ≡ of_book cause };

    fn from(cause: BookFault) -> Fault {
        match cause {
            BookFault::Refused(refusal) => Fault::Refused(refusal),
            BookFault::Memory => Fault::Memory,
        }
    }
}
