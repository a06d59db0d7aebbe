// The names of accesses to memory behind their type: WebAssembly Core 1.0, section A.7, and the threads proposal.
ghost use Rattle.std.specs.Prelude.{◌≡◌, ◌≢◌, ◌++◌, MatchOption, codes};
ghost use Rattle.wasm_ast.specs.declared.instr.LoadOp.{LoadOp};
ghost use Rattle.wasm_ast.specs.declared.instr.Form.{Form};
ghost use Rattle.wasm_ast.specs.declared.instr.Access.{Access};
ghost use Rattle.wasm_ast.specs.Operators.{form_type, load_type};
ghost use Rattle.wat_names.specs.Names.{load_word, store_word, atomic_load_word, rmw_form_word, extension, IsModify, IsExtended, IsRmwNamed, IsPlainNamed, IsAtomicNamed};

use wasm_ast::{Access, Form, IntType, LoadOp, RmwOp};

/// The load of a word behind a type.
fn load_named(of: IntType, word: &[u8]) -> Option<LoadOp>
    ensures { MatchOption result ((op : LoadOp) → load_type op ≡ of → load_word op ≢ word.now) (λ op. (load_type op ≡ of) × (load_word op ≡ word.now)) }
{
    match of {
        IntType::I32 => match word {
            b"load" => Some(LoadOp::I32),
            b"load8_s" => Some(LoadOp::I32From8S),
            b"load8_u" => Some(LoadOp::I32From8U),
            b"load16_s" => Some(LoadOp::I32From16S),
            b"load16_u" => Some(LoadOp::I32From16U),
            _ => None,
        },
        IntType::I64 => match word {
            b"load" => Some(LoadOp::I64),
            b"load8_s" => Some(LoadOp::I64From8S),
            b"load8_u" => Some(LoadOp::I64From8U),
            b"load16_s" => Some(LoadOp::I64From16S),
            b"load16_u" => Some(LoadOp::I64From16U),
            b"load32_s" => Some(LoadOp::I64From32S),
            b"load32_u" => Some(LoadOp::I64From32U),
            _ => None,
        },
    }
}

/// The form of a store of a word behind a type.
fn store_named(of: IntType, word: &[u8]) -> Option<Form>
    ensures { MatchOption result ((f : Form) → form_type f ≡ of → store_word f ≢ word.now) (λ f. (form_type f ≡ of) × (store_word f ≡ word.now)) }
{
    match of {
        IntType::I32 => match word {
            b"store" => Some(Form::I32),
            b"store8" => Some(Form::I32Low8),
            b"store16" => Some(Form::I32Low16),
            _ => None,
        },
        IntType::I64 => match word {
            b"store" => Some(Form::I64),
            b"store8" => Some(Form::I64Low8),
            b"store16" => Some(Form::I64Low16),
            b"store32" => Some(Form::I64Low32),
            _ => None,
        },
    }
}

/// The form of an atomic load of a word behind a type.
fn atomic_load_named(of: IntType, word: &[u8]) -> Option<Form>
    ensures { MatchOption result ((f : Form) → form_type f ≡ of → atomic_load_word f ≢ word.now) (λ f. (form_type f ≡ of) × (atomic_load_word f ≡ word.now)) }
{
    match of {
        IntType::I32 => match word {
            b"load" => Some(Form::I32),
            b"load8_u" => Some(Form::I32Low8),
            b"load16_u" => Some(Form::I32Low16),
            _ => None,
        },
        IntType::I64 => match word {
            b"load" => Some(Form::I64),
            b"load8_u" => Some(Form::I64Low8),
            b"load16_u" => Some(Form::I64Low16),
            b"load32_u" => Some(Form::I64Low32),
            _ => None,
        },
    }
}

/// The atomic read, modify and write of a word, of a form.
fn modify_named(of: Form, word: &[u8]) -> Option<Access>
    ensures { MatchOption result ((a : Access) → ¬ IsModify of a word.now) (λ a. IsModify of a word.now) }
{
    match word {
        b"add" => Some(Access::AtomicRmw(RmwOp::Add, of)),
        b"sub" => Some(Access::AtomicRmw(RmwOp::Sub, of)),
        b"and" => Some(Access::AtomicRmw(RmwOp::And, of)),
        b"or" => Some(Access::AtomicRmw(RmwOp::Or, of)),
        b"xor" => Some(Access::AtomicRmw(RmwOp::Xor, of)),
        b"xchg" => Some(Access::AtomicRmw(RmwOp::Exchange, of)),
        b"cmpxchg" => Some(Access::AtomicCompareExchange(of)),
        _ => None,
    }
}

/// The narrow atomic read, modify and write of a word with `_u` behind it, of a form.
fn narrow_named(of: Form, word: &[u8]) -> Option<Access>
    requires { extension of ≡ codes "_u" }
    ensures { MatchOption result ((a : Access) → ¬ IsExtended of a word.now) (λ a. IsExtended of a word.now) }
{
    match word.strip_suffix(b"_u".as_slice()) {
        Some(front) => modify_named(of, front),
        None => None,
    }
}

/// The atomic read, modify and write of a word behind a type and `atomic.`.
fn rmw_named(of: IntType, word: &[u8]) -> Option<Access>
    ensures { MatchOption result ((a : Access) → ¬ IsRmwNamed of a word.now) (λ a. IsRmwNamed of a word.now) }
{
    match of {
        IntType::I32 => i32_rmw_named(word),
        IntType::I64 => i64_rmw_named(word),
    }
}

/// The same of an i32.
fn i32_rmw_named(word: &[u8]) -> Option<Access>
    ensures { MatchOption result ((a : Access) → ¬ IsRmwNamed IntType.I32 a word.now) (λ a. IsRmwNamed IntType.I32 a word.now) }
{
    if let Some(op) = word.strip_prefix(b"rmw.".as_slice()) {
        return modify_named(Form::I32, op);
    }
    if let Some(op) = word.strip_prefix(b"rmw8.".as_slice()) {
        return narrow_named(Form::I32Low8, op);
    }
    match word.strip_prefix(b"rmw16.".as_slice()) {
        Some(op) => narrow_named(Form::I32Low16, op),
        None => None,
    }
}

/// The same of an i64.
fn i64_rmw_named(word: &[u8]) -> Option<Access>
    ensures { MatchOption result ((a : Access) → ¬ IsRmwNamed IntType.I64 a word.now) (λ a. IsRmwNamed IntType.I64 a word.now) }
{
    if let Some(op) = word.strip_prefix(b"rmw.".as_slice()) {
        return modify_named(Form::I64, op);
    }
    if let Some(op) = word.strip_prefix(b"rmw8.".as_slice()) {
        return narrow_named(Form::I64Low8, op);
    }
    if let Some(op) = word.strip_prefix(b"rmw16.".as_slice()) {
        return narrow_named(Form::I64Low16, op);
    }
    match word.strip_prefix(b"rmw32.".as_slice()) {
        Some(op) => narrow_named(Form::I64Low32, op),
        None => None,
    }
}

/// The access that isn't atomic of a word behind a type.
pub(crate) fn plain_access_named(of: IntType, word: &[u8]) -> Option<Access>
    ensures { MatchOption result ((a : Access) → ¬ IsPlainNamed of a word.now) (λ a. IsPlainNamed of a word.now) }
{
    if let Some(op) = load_named(of, word) {
        return Some(Access::Load(op));
    }
    match store_named(of, word) {
        Some(form) => Some(Access::Store(form)),
        None => None,
    }
}

/// The atomic access of a word behind a type and `atomic.`.
pub(crate) fn atomic_named(of: IntType, word: &[u8]) -> Option<Access>
    ensures { MatchOption result ((a : Access) → ¬ IsAtomicNamed of a word.now) (λ a. IsAtomicNamed of a word.now) }
{
    if let Some(form) = atomic_load_named(of, word) {
        return Some(Access::AtomicLoad(form));
    }
    if let Some(form) = store_named(of, word) {
        return Some(Access::AtomicStore(form));
    }
    rmw_named(of, word)
}
