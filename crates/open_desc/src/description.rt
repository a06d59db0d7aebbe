// What an open description is.

/// What an open description stands for.
#[derive(Clone, Copy, Debug, PartialEq, Eq)]
pub enum Kind {
    /// The console's input.
    Input,
    /// The console's output.
    Output,
    /// The console's errors.
    Error,
    /// A file, by the number of its node.
    File(u32),
    /// A directory, by the number of its node.
    Dir(u32),
    /// The reading end of a pipe, by the pipe's number.
    PipeRead(u32),
    /// The writing end of a pipe, by the pipe's number.
    PipeWrite(u32),
}

/// An open description.
#[derive(Clone, Copy, Debug, PartialEq, Eq)]
pub struct Description {
    /// What it stands for.
    pub kind: Kind,
    /// Where the next read or write of a file begins, in bytes.
    pub offset: u64,
    /// The flags of WASI preview 1 (`fdflags`): append 1, nonblock 4.
    pub flags: u16,
    /// The rights of WASI preview 1 (`rights`): read 2, write 64.
    pub rights: u64,
    /// Whether it is the root directory that process 1 was given.
    pub root: bool,
}

/// An open description with the number that it alone was given, and how many descriptors refer to it.
#[derive(Clone, Copy, Debug, PartialEq, Eq)]
pub struct Opened {
    /// The number that it alone was given, the next one after that of the description opened before.
    pub number: u64,
    /// What it leads to, with its offset, flags and rights.
    pub description: Description,
    /// How many descriptors refer to it, at least 1.
    pub references: usize,
}
