//! The fields of a module, from their text (WebAssembly Core 1.0, section 6.6).
#![tactic(auto)]

mod fault;
mod field_forms;
mod field_list;
mod function_fields;
mod limits;
mod module_group;
mod small_fields;

pub use fault::FormFault;
pub use field_list::fields_of;
pub use module_group::{are_groups, module_inside};
