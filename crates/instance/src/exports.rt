// Functions that a module exports, by their names and types.
ghost use Rattle.std.specs.Prelude.{◌≡◌, length, nat_le, IfOk};
ghost use Rattle.wasm_ast.specs.Table.{function_type};
ghost use Rattle.wasm_ast.specs.TypingModule.{functions_of};
ghost use Rattle.instance.specs.Kept.{HasExports};
ghost use Rattle.instance.specs.Program.{exported_function, exported_of_type, own_of_type, params_of};

use std::alloc::{AllocError, Global};
use std::collections::BTreeMap;
use wasm_ast::{Export, ExportKind as Exported, ValType, same_types};
use wasm_validate::Valid;

/// What an exported function is for. None of them gives a result.
#[derive(Clone, Copy, Debug, PartialEq, Eq)]
pub enum ExportKind {
    /// A program begins with it. It takes nothing.
    Start,
    /// A further thread begins with it. It takes the thread's number and an argument, both i32.
    ThreadStart,
    /// It handles signals, and takes the signal's number, an i32.
    Handler,
}

impl ExportKind {
    /// The parameters of such a function.
    pub fn params(self) -> &'static [ValType]
        ensures { result.now ≡ params_of self }
    {
        match self {
            ExportKind::Start => &[],
            ExportKind::ThreadStart => &[ValType::I32, ValType::I32],
            ExportKind::Handler => &[ValType::I32],
        }
    }
}

/// What each name is exported as. `AllocError` is want of memory and nothing else.
pub fn by_name(alloc: Global, exports: &[Export]) -> Result<BTreeMap<Vec<u8>, Exported>, AllocError>
    ensures { IfOk result (λ map. HasExports exports.now map) }
{
    let mut map = BTreeMap::new(alloc);
    let mut left = exports.len();
    while left > 0 {
        left -= 1;
        let export = &exports[left];
        let name = Vec::from_slice(alloc, export.name.as_slice())?;
        map.insert(name, export.kind)?;
    }
    Ok(map)
}

/// Whether a function is one of the module's own, which imported functions come before in the counting.
fn is_own(valid: &Valid, function: u32) -> bool
    ensures { result ≡ nat_le (length (functions_of valid.now.imports)) function }
{
    function as usize >= valid.imported_functions()
}

/// A function, if it is one of the module's own, takes these parameters and gives nothing.
fn own_of_type(valid: &Valid, params: &[ValType], function: u32) -> Option<u32>
    ensures { result ≡ own_of_type valid.now params.now function (function_type valid.now function) }
{
    let of = valid.function_type(function)?;
    if is_own(valid, function)
        && same_types(params, of.params.as_slice())
        && same_types(&[], of.results.as_slice())
    {
        Some(function)
    } else {
        None
    }
}

/// The function that an export names, if it is one of the module's own, takes these parameters and gives nothing.
fn exported_of_type(valid: &Valid, params: &[ValType], exported: Exported) -> Option<u32>
    ensures { result ≡ exported_of_type valid.now params.now exported }
{
    match exported {
        Exported::Func(function) => own_of_type(valid, params, function),
        Exported::Table(_) | Exported::Memory(_) | Exported::Global(_) => None,
    }
}

/// The index of the function of the module's own that is exported under a name, takes these parameters and gives
/// nothing, where the map has what each name is exported as.
pub fn exported_function(
    valid: &Valid,
    exports: &BTreeMap<Vec<u8>, Exported>,
    name: &[u8],
    params: &[ValType],
) -> Option<u32>
    requires { HasExports valid.now.exports exports.now }
    ensures { result ≡ exported_function valid.now name.now params.now }
{
    match exports.get(name) {
        Some(exported) => exported_of_type(valid, params, *exported),
        None => None,
    }
}
