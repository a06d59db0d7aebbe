// Elements of strings as data: WebAssembly Core 1.0, section 6.3.3.

/// What an element of a string stands for.
#[derive(Clone, Copy)]
pub(crate) enum Value {
    Byte(u8),
    Character(char),
}

/// An element of a string.
#[derive(Clone, Copy)]
pub(crate) struct Element {
    /// How many bytes of the text it has.
    pub(crate) length: usize,
    /// What it stands for.
    pub(crate) value: Value,
}
