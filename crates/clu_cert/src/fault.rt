//! Why a line gave nothing: it has another form, or memory is wanting. Its number is added by the reader, which alone
//! counts lines.

ghost use Rattle.std.specs.Prelude.{◌≡◌};
ghost use Rattle.clu_cert.specs.declared.fault.Fault.TheVariants.{Memory};

use std::alloc::{AllocError, AllocFailed};

/// Why a line gave nothing.
#[derive(Debug, Drop)]
pub enum Fault {
    /// Want of memory.
    Memory,
    /// The line has another form.
    Bad,
}

impl From<AllocError> for Fault {
    ghost from_gives = { λ _ e. e ≡ Memory };

    fn from(_e: AllocError) -> Fault {
        Fault::Memory
    }
}

impl<T: Drop> From<AllocFailed<T>> for Fault {
    ghost from_gives = { λ _ e. e ≡ Memory };

    fn from(_e: AllocFailed<T>) -> Fault {
        Fault::Memory
    }
}
