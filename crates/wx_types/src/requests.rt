// What a slice of a guest thread ends with, and names of nodes and threads.
use super::byte_list::Bytes;

/// The request at which a slice of a guest thread ended.
#[derive(Debug, Drop, PartialEq, Eq)]
pub struct Request {
    /// The number of the call.
    pub call: u16,
    /// 0, or the error number that the process itself found: a range outside of its memory, a
    /// buffer list past its limits, or an argument that only the process can judge.
    pub refused: u16,
    /// The call's arguments in their order, and zeros behind them. A wait or notify has the address
    /// with its offset added as its first word. The last word is the value in memory for a wait, and
    /// the handler's function for `callback_signal`; the first is 1 for the return of a main
    /// thread's last frame.
    pub words: [u64; 9],
    /// The first range of memory that the call reads: for a read of buffers the list of the buffers,
    /// for a write what they hold; for the calls on arguments and environment the result. Empty
    /// where there is none or `refused` isn't 0.
    pub one: Bytes,
    /// The second range of memory that the call reads. Empty where there is none or `refused` isn't 0.
    pub two: Bytes,
}

/// A guest thread: its process's number and its own in that process, both from 1.
#[derive(Clone, Copy, Debug, PartialEq, Eq)]
pub struct Task {
    /// The process's number.
    pub pid: u32,
    /// The thread's number in its process.
    pub tid: u32,
}

/// What a node of the file tree is.
#[derive(Clone, Copy, Debug, PartialEq, Eq)]
pub enum NodeKind {
    /// A regular file.
    File,
    /// A directory.
    Dir,
}
