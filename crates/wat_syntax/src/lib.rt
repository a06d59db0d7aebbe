//! What the fields of a text say, as data, and what stands in front of other items (WebAssembly Core 1.0, sections 6.3 to 6.6).
#![tactic(auto)]

mod field;
mod fronts;
mod groups;
mod lists;
mod parsed;
mod simple;
mod steps;
mod words;

pub use field::{Field, FieldInLine};
pub use fronts::{identifier_at, name_of, result_at};
pub use groups::{
    KeyedGroup, group_at, is_end, keyed_at, one_reference, one_type, one_word, text_at, word_at,
};
pub use lists::{exports_at, use_at, variables_at};
pub use parsed::{
    DataField, ElementField, ExportField, Exported, GlobalField, ImportField, ImportOf,
    MemoryField, Reference, Refusal, TableField, TypeField, TypeUse, Variable,
};
pub use simple::Simple;
pub use steps::{FunctionField, Plain, Step};
pub use words::{reference_of, type_of};
