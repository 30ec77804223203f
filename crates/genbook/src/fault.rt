//! Why something new does not come onto the book.

use px_ops::Refusal;
use std::alloc::AllocError;

/// Why something new does not come onto the book.
#[derive(Debug, Drop, PartialEq, Eq)]
pub enum BookFault {
    /// It is refused.
    Refused(Refusal),
    /// Memory wanted.
    Memory,
}

impl From<AllocError> for BookFault {
    ghost use Rattle.std.specs.Prelude.{◌≡◌};
    ghost use Rattle.genbook.specs.declared.fault.BookFault.TheVariants.{Memory};

    ghost from_gives = { λ _ e. e ≡ Memory };

    fn from(_: AllocError) -> BookFault {
        BookFault::Memory
    }
}

impl From<Refusal> for BookFault {
    ghost use Rattle.std.specs.Prelude.{◌≡◌};
    ghost use Rattle.genbook.specs.declared.fault.BookFault.TheVariants.{Refused};

    ghost from_gives = { λ why e. e ≡ Refused why };

    fn from(why: Refusal) -> BookFault {
        BookFault::Refused(why)
    }
}
