// Why tokens have no fields.

/// Why tokens have no fields.
#[derive(Clone, Copy, Debug)]
pub enum FieldsFault {
    /// The parentheses aren't balanced.
    Unbalanced,
    /// Want of memory.
    Memory,
}
