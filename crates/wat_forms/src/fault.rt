// What is wrong with the fields of a text.

/// Why groups aren't fields.
#[derive(Clone, Copy)]
pub enum FormFault {
    /// The group in this line has no form, or stands where it may not.
    Form { line: u32 },
    /// Want of memory.
    Memory,
}
