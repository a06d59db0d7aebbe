//! Identifiers, labels and types of a text, and what they are bound to (WebAssembly Core 1.0, sections 6.3.5 and 6.6).
#![tactic(auto)]

mod bindings;
mod function_types;
mod labels;
mod local_names;
mod module_types;
mod names;
mod spaces;
mod type_uses;
mod unmeant;

pub use bindings::Bindings;
pub use function_types::FunctionTypes;
pub use labels::Labels;
pub use local_names::LocalNames;
pub use module_types::types_of;
pub use names::Names;
pub use spaces::{Spaces, spaces_of};
pub use type_uses::{type_found, type_index};
pub use unmeant::{Unmeant, bound};
