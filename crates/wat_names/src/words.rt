// The names that don't begin with a type: WebAssembly Core 1.0, section A.7, and the threads proposal.
ghost use Rattle.std.specs.Prelude.{◌≡◌, ◌≢◌, MatchOption};
ghost use Rattle.wasm_ast.specs.declared.instr.VariableOp.{VariableOp};
ghost use Rattle.wat_names.specs.declared.named.Named.{Named};
ghost use Rattle.wat_names.specs.Names.{variable_name};
ghost use Rattle.wat_names.specs.Rows.{name_of, IsShort, IsLong};

use super::named::Named;
use wasm_ast::{Access, IntType, VariableOp};

/// The variable instruction of a name.
pub(crate) fn variable_named(word: &[u8]) -> Option<VariableOp>
    ensures { MatchOption result ((op : VariableOp) → variable_name op ≢ word.now) (λ op. variable_name op ≡ word.now) }
{
    match word {
        b"local.get" => Some(VariableOp::LocalGet),
        b"local.set" => Some(VariableOp::LocalSet),
        b"local.tee" => Some(VariableOp::LocalTee),
        b"global.get" => Some(VariableOp::GlobalGet),
        b"global.set" => Some(VariableOp::GlobalSet),
        _ => None,
    }
}

/// The instruction of a name of at most six letters, none of them a point.
pub(crate) fn short_named(word: &[u8]) -> Option<Named>
    ensures { MatchOption result ((n : Named) → IsShort n → name_of n ≢ word.now) (λ n. name_of n ≡ word.now) }
{
    match word {
        b"nop" => Some(Named::Nop),
        b"block" => Some(Named::Block),
        b"loop" => Some(Named::Loop),
        b"if" => Some(Named::If),
        b"else" => Some(Named::Else),
        b"end" => Some(Named::End),
        b"br" => Some(Named::Br),
        b"br_if" => Some(Named::BrIf),
        b"return" => Some(Named::Return),
        b"call" => Some(Named::Call),
        b"drop" => Some(Named::Drop),
        b"select" => Some(Named::Select),
        _ => None,
    }
}

/// The instruction of a longer name that begins with no type and is no variable instruction's.
pub(crate) fn long_named(word: &[u8]) -> Option<Named>
    ensures { MatchOption result ((n : Named) → IsLong n → name_of n ≢ word.now) (λ n. name_of n ≡ word.now) }
{
    if word == b"br_table".as_slice() {
        return Some(Named::BrTable);
    }
    if word == b"call_indirect".as_slice() {
        return Some(Named::CallIndirect);
    }
    if word == b"unreachable".as_slice() {
        return Some(Named::Unreachable);
    }
    if word == b"memory.size".as_slice() {
        return Some(Named::MemorySize);
    }
    if word == b"memory.grow".as_slice() {
        return Some(Named::MemoryGrow);
    }
    if word == b"memory.atomic.notify".as_slice() {
        return Some(Named::Access(Access::Notify));
    }
    if word == b"memory.atomic.wait32".as_slice() {
        return Some(Named::Access(Access::Wait(IntType::I32)));
    }
    if word == b"memory.atomic.wait64".as_slice() {
        return Some(Named::Access(Access::Wait(IntType::I64)));
    }
    if word == b"atomic.fence".as_slice() {
        return Some(Named::Fence);
    }
    None
}
