// Why bytes were refused as an image.
ghost use Rattle.std.specs.Prelude.{◌≡◌};

use byte_cursor::CursorFault;
use std::alloc::AllocError;
use thiserror::Error;
use wx_types::{Errno, Refusal};

/// Why bytes were refused as an image.
#[derive(Error, Clone, Copy, Debug, PartialEq, Eq)]
pub enum ImageFault {
    /// They are no image.
    #[error("no image")]
    NotImage,
    /// Out of memory.
    #[error("out of memory")]
    Memory,
}

impl From<AllocError> for ImageFault {
    ghost use Rattle.std.specs.Prelude.{◌≡◌};
    ghost use Rattle.boot_image.specs.declared.fault.ImageFault.TheVariants.{Memory};

    ghost from_gives = { λ _ fault. fault ≡ Memory };

    fn from(_want: AllocError) -> ImageFault {
        ImageFault::Memory
    }
}

impl From<CursorFault> for ImageFault {
    ghost use Rattle.std.specs.Prelude.{◌≡◌};
    ghost use Rattle.boot_image.specs.declared.fault.ImageFault.TheVariants.{NotImage};

    ghost from_gives = { λ _ fault. fault ≡ NotImage };

    fn from(_fault: CursorFault) -> ImageFault {
        ImageFault::NotImage
    }
}

impl From<Refusal> for ImageFault {
    ghost use Rattle.boot_image.specs.Answers.{fault_of};
    ghost use Rattle.std.specs.Prelude.{◌≡◌};

    ghost from_gives = { λ refusal fault. fault ≡ fault_of refusal };

    fn from(refusal: Refusal) -> ImageFault {
        match refusal {
            Refusal::Errno(_) => ImageFault::NotImage,
            Refusal::Memory => ImageFault::Memory,
        }
    }
}
