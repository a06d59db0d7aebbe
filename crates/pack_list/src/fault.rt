// Why a list was refused.
use thiserror::Error;

/// Why a list was refused.
#[derive(Error, Clone, Copy, Debug, PartialEq, Eq)]
pub enum ListFault {
    /// The line of this number, from 1, is the first that is wrong.
    #[error("wrong line")]
    Wrong(u32),
    /// Out of memory.
    #[error("out of memory")]
    Memory,
}
