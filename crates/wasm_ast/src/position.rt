// Places in a body: WebAssembly Core 1.0, section 2.4.6.
ghost use Rattle.std.specs.Prelude.{◌≡◌, ◌+◌, ◌<◌, ◌^◌};

/// A place in a body: in front of an instruction, or at the end of a list.
#[derive(Clone, Copy)]
pub struct Position {
    /// The number of the list.
    pub list: u32,
    /// How many instructions of the list are in front of it.
    pub index: usize,
}

impl Position {
    /// The start of a list.
    pub fn start(list: u32) -> Position
        ensures { result ≡ record { list = list; index = 0 } }
    {
        Position { list, index: 0 }
    }

    /// Behind the next instruction of the list.
    pub fn next(self) -> Position
        requires { self.index + 1 < 2 ^ 64 }
        ensures { result ≡ record { list = self.list; index = self.index + 1 } }
    {
        Position {
            list: self.list,
            index: self.index + 1,
        }
    }
}
