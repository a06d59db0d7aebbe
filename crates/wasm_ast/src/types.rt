// Types: WebAssembly Core 1.0, section 2.3.
ghost use Rattle.std.specs.Prelude.{◌≡◌};
ghost use Rattle.wasm_ast.specs.Types.{same_type};
ghost use Rattle.wasm_ast.specs.Table.{same_types};

use super::items::Items;

/// A value type (2.3.1).
#[derive(Clone, Copy)]
pub enum ValType {
    I32,
    I64,
    F32,
    F64,
}

impl ValType {
    /// Whether the two types are the same.
    pub fn is(self, other: ValType) -> bool
        ensures { result ≡ same_type self other }
    {
        matches!(
            (self, other),
            (ValType::I32, ValType::I32)
                | (ValType::I64, ValType::I64)
                | (ValType::F32, ValType::F32)
                | (ValType::F64, ValType::F64)
        )
    }
}

/// Whether two lists of types are the same.
pub fn same_types(types: &[ValType], others: &[ValType]) -> bool
    ensures { result ≡ same_types types.now others.now }
{
    if types.len() != others.len() {
        return false;
    }
    for i in 0..types.len() {
        if !types[i].is(others[i]) {
            return false;
        }
    }
    true
}

/// A value type of whole numbers, by which the integer instructions are named.
#[derive(Clone, Copy)]
pub enum IntType {
    I32,
    I64,
}

/// The type of a function (2.3.3): what it takes and what it gives. In a valid module it gives at
/// most one value.
#[derive(Drop)]
pub struct FuncType {
    /// The types of the parameters, in their order.
    pub params: Items<ValType>,
    /// The types of the results, in their order.
    pub results: Items<ValType>,
}

/// The limits of a memory, in pages of 65,536 bytes, or of a table, in elements (2.3.4).
#[derive(Clone, Copy)]
pub struct Limits {
    /// The size at the start.
    pub min: u32,
    /// The greatest size that it may grow to, or `None` for no bound of its own.
    pub max: Option<u32>,
    /// Whether threads share it. Never so for a table.
    pub shared: bool,
}
