//! Why a reader gave no links.

ghost use Rattle.std.specs.Prelude.{◌≡◌};

use std::alloc::AllocError;

/// Why a reader gave no links.
#[derive(Clone, Copy)]
pub enum ReadFault {
    /// A byte is bad, or there is none where one should be, and so many are left from there on.
    Left(usize),
    /// Memory wanted.
    Memory,
}

impl From<usize> for ReadFault {
    ghost use Rattle.object_format.specs.declared.read_fault.ReadFault.TheVariants.{Left};

    ghost from_gives = { λ left fault. fault ≡ Left left };

    fn from(left: usize) -> ReadFault {
        ReadFault::Left(left)
    }
}

impl From<AllocError> for ReadFault {
    ghost use Rattle.object_format.specs.declared.read_fault.ReadFault.TheVariants.{Memory};

    ghost from_gives = { λ _ fault. fault ≡ Memory };

    fn from(_: AllocError) -> ReadFault {
        ReadFault::Memory
    }
}
