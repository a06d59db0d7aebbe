// The error numbers of WASI preview 1 that the host answers, and the refusals of calls.
ghost use Rattle.std.specs.Prelude.{◌≡◌};
ghost use Rattle.wx_types.specs.Errno.{errno_number};

use std::alloc::{AllocError, AllocFailed};

/// An error number of WASI preview 1 (`errno`). These are the ones that the host answers.
#[derive(Clone, Copy, Debug, PartialEq, Eq)]
pub enum Errno {
    /// No error.
    Success = 0,
    /// A list is too long, or a buffer too short for a path.
    TooBig = 1,
    /// Permission denied.
    Acces = 2,
    /// The resource is unavailable, or the operation would block.
    Again = 6,
    /// Bad file descriptor.
    Badf = 8,
    /// No child process.
    Child = 12,
    /// The file exists.
    Exist = 20,
    /// Bad address.
    Fault = 21,
    /// The file is too large.
    Fbig = 22,
    /// Interrupted by a signal.
    Intr = 27,
    /// Invalid argument.
    Inval = 28,
    /// Input or output error.
    Io = 29,
    /// Is a directory.
    Isdir = 31,
    /// Too many descriptors of this process.
    Mfile = 33,
    /// A path or a component is too long.
    Nametoolong = 37,
    /// Too many open descriptions or pipes of the host.
    Nfile = 41,
    /// No such file or directory.
    Noent = 44,
    /// The file is no program that loads.
    Noexec = 45,
    /// No space left.
    Nospc = 51,
    /// The call is not supported.
    Nosys = 52,
    /// Not a directory.
    Notdir = 54,
    /// The directory is not empty.
    Notempty = 55,
    /// The operation is not supported.
    Notsup = 58,
    /// The pipe has no reading end.
    Pipe = 64,
    /// Seek on what has no offset.
    Spipe = 70,
    /// No such process or thread.
    Srch = 71,
    /// The descriptor lacks the right.
    Notcapable = 76,
}

impl Errno {
    /// The number that a guest sees.
    pub fn number(self) -> u16
        ensures { result ≡ errno_number self }
    {
        self as u16
    }
}

/// Why a call that also takes memory refused.
#[derive(Clone, Copy, Debug, PartialEq, Eq)]
pub enum Refusal {
    /// The error number that the guest is answered.
    Errno(Errno),
    /// Want of memory. A guest never sees it: it ends the run.
    Memory,
}

impl From<AllocError> for Refusal {
    ghost use Rattle.std.specs.Prelude.{◌≡◌};
    ghost use Rattle.wx_types.specs.declared.errors.Refusal.TheVariants.{Memory};

    ghost from_gives = { λ _ r. r ≡ Memory };

    fn from(_want: AllocError) -> Refusal {
        Refusal::Memory
    }
}

impl<T: Drop> From<AllocFailed<T>> for Refusal {
    ghost use Rattle.std.specs.Prelude.{◌≡◌};
    ghost use Rattle.wx_types.specs.declared.errors.Refusal.TheVariants.{Memory};

    ghost from_gives = { λ _ r. r ≡ Memory };

    fn from(_want: AllocFailed<T>) -> Refusal {
        Refusal::Memory
    }
}

impl From<Errno> for Refusal {
    ghost use Rattle.std.specs.Prelude.{◌≡◌};
    ghost use Rattle.wx_types.specs.declared.errors.Refusal.TheVariants.{Errno as refused};

    ghost from_gives = { λ number r. r ≡ refused number };

    fn from(number: Errno) -> Refusal {
        Refusal::Errno(number)
    }
}

/// A call of the outside failed: its count of faults rose in that call.
#[derive(Clone, Copy, Debug, PartialEq, Eq)]
pub struct Failed;

/// Why a shelf gave no file.
#[derive(Clone, Copy, Debug, PartialEq, Eq)]
pub enum ShelfError {
    /// The shelf failed: its count of faults rose in that call.
    Failed,
    /// The named file is longer than the limit of the call.
    TooLong,
    /// Want of memory.
    Memory,
}

impl From<AllocError> for ShelfError {
    ghost use Rattle.std.specs.Prelude.{◌≡◌};
    ghost use Rattle.wx_types.specs.declared.errors.ShelfError.TheVariants.{Memory};

    ghost from_gives = { λ _ e. e ≡ Memory };

    fn from(_want: AllocError) -> ShelfError {
        ShelfError::Memory
    }
}

impl From<Failed> for ShelfError {
    ghost use Rattle.std.specs.Prelude.{◌≡◌};
    ghost use Rattle.wx_types.specs.declared.errors.ShelfError.TheVariants.{Failed as failed};

    ghost from_gives = { λ _ e. e ≡ failed };

    fn from(_failed: Failed) -> ShelfError {
        ShelfError::Failed
    }
}
