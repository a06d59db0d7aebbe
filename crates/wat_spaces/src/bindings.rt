// What names mean in a module: WebAssembly Core 1.0, section 6.6.1.

use super::function_types::FunctionTypes;
use super::spaces::Spaces;

/// The types of a module, and the identifiers of each space.
#[derive(Drop)]
pub struct Bindings<'a> {
    pub of: FunctionTypes,
    pub names: Spaces<'a>,
}
