//! Why a push is not routed.

ghost use Rattle.std.specs.Prelude.{◌≡◌};
ghost use Rattle.router.specs.declared.push_fault.PushFault.TheVariants.{Memory};

use px_ops::Refusal;
use std::alloc::AllocError;

/// Why a push is not routed.
#[derive(Debug, Drop)]
pub enum PushFault {
    /// No storage may take part in it.
    Refused(Refusal),
    /// Memory wants.
    Memory,
}

impl From<AllocError> for PushFault {
    ghost from_gives = { λ _ fault. fault ≡ Memory };

    fn from(_: AllocError) -> PushFault {
        PushFault::Memory
    }
}
