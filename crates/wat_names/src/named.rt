// The instruction of a name: WebAssembly Core 1.0, sections 6.5 and A.7, and the threads proposal.

ghost use Rattle.std.specs.Prelude.{◌≡◌, ◌≢◌, List, ℕ, MatchOption};
ghost use Rattle.wasm_ast.specs.Immediates.{Value};
ghost use Rattle.wat_names.specs.declared.named.Named.{Named};
ghost use Rattle.wat_names.specs.Rows.{row_of, name_of, IsTyped, MakesEncoding, BeginsRound};
ghost use Rattle.wat_names.specs.Named.{named_by};
ghost use Rattle.wat_names.specs.Names.{typed};

use super::accesses::{atomic_named, plain_access_named};
use super::numeric::numeric_named;
use super::words::{long_named, short_named, variable_named};
use wasm_ast::{Access, IntType, NumericOp, VariableOp};

/// What the name of an instruction begins. Instructions on floating-point numbers have no name here.
#[derive(Clone, Copy)]
pub enum Named {
    Unreachable,
    Nop,
    Block,
    Loop,
    If,
    /// The middle of an if.
    Else,
    /// The end of a block, a loop or an if.
    End,
    Br,
    BrIf,
    BrTable,
    Return,
    Call,
    CallIndirect,
    Drop,
    Select,
    Variable(VariableOp),
    Access(Access),
    MemorySize,
    MemoryGrow,
    /// `atomic.fence`
    Fence,
    I32Const,
    I64Const,
    Numeric(NumericOp),
}

/// The instruction whose name is a type of whole numbers, a point and a word.
fn typed_named(of: IntType, word: &[u8]) -> Option<Named>
    ensures { MatchOption result ((n : Named) → name_of n ≢ typed of word.now) (λ n. name_of n ≡ typed of word.now) }
{
    if let Some(behind) = word.strip_prefix(b"atomic.".as_slice()) {
        return match atomic_named(of, behind) {
            Some(op) => Some(Named::Access(op)),
            None => None,
        };
    }
    if matches!(word, b"const") {
        return Some(match of {
            IntType::I32 => Named::I32Const,
            IntType::I64 => Named::I64Const,
        });
    }
    if let Some(op) = numeric_named(of, word) {
        return Some(Named::Numeric(op));
    }
    match plain_access_named(of, word) {
        Some(op) => Some(Named::Access(op)),
        None => None,
    }
}

/// The instruction whose name is a word that begins with no type.
fn word_named(word: &[u8]) -> Option<Named>
    ensures { MatchOption result ((n : Named) → ¬ IsTyped n → name_of n ≢ word.now) (λ n. name_of n ≡ word.now) }
{
    if let Some(op) = variable_named(word) {
        return Some(Named::Variable(op));
    }
    if let Some(named) = short_named(word) {
        return Some(named);
    }
    long_named(word)
}

/// The instruction that has a name.
fn name_found(word: &[u8]) -> Option<Named>
    ensures { MatchOption result ((n : Named) → name_of n ≢ word.now) (λ n. name_of n ≡ word.now) }
{
    if let Some(behind) = word.strip_prefix(b"i32.".as_slice()) {
        return typed_named(IntType::I32, behind);
    }
    if let Some(behind) = word.strip_prefix(b"i64.".as_slice()) {
        return typed_named(IntType::I64, behind);
    }
    word_named(word)
}

/// The instruction of a name, or `None` where the word is no instruction's name.
pub fn instruction_named(word: &[u8]) -> Option<Named>
    ensures { result ≡ named_by word.now }
{
    name_found(word)
}

/// A name and an opcode stand on one row. Each instruction is found by its name, so that names differ, and
/// what is found by a name bears it; the opcode and the immediates of a row are those of the instructions
/// that it makes, and those of a row that makes none begin what stands round instructions.
pub fn names_stand_beside_opcodes()
    ensures found { (n : Named) → named_by (name_of n) ≡ Some n }
    ensures bears { (word : List ℕ) (n : Named) → named_by word ≡ Some n → name_of n ≡ word }
    ensures encoded { (n : Named) (v : Value (row_of n).immediates) → MakesEncoding n v }
    ensures round { (n : Named) → BeginsRound n }
{}
