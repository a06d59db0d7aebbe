// What the instructions of a function may name, and what each leaves of the operands:
// WebAssembly Core 1.0, sections 3.1 and 3.3.
ghost use Rattle.std.specs.Prelude.{◌≡◌, ◌<◌, ◌^◌, [], ◌∷◌, IfOk, option_to_list, slice_get, option_copied};
ghost use Rattle.wasm_ast.specs.Typing.{joined, selected, same_label, takes, table_label, branched, local_type, group_type, function_type, after_variable, is_aligned};
ghost use Rattle.wasm_validate.specs.Blocks.{ended, labels_of};
ghost use Rattle.wasm_ast.specs.Locals.{total};
ghost use Rattle.wasm_validate.specs.Ends.{ends_from};

use super::blocks::Blocks;
use std::alloc::{AllocError, Global};
use wasm_ast::{Access, FuncType, LocalGroup, Targets, ValType, VariableOp};

/// What the instructions of a function may name (3.1.1), apart from labels.
#[derive(Clone, Copy)]
pub struct Context<'a> {
    /// The types of the module.
    pub types: &'a [FuncType],
    /// The index of the type of each function.
    pub functions: &'a [u32],
    /// How many tables there are.
    pub tables: usize,
    /// How many memories there are.
    pub memories: usize,
    /// The type of each global, and whether it can be set.
    pub globals: &'a [(ValType, bool)],
    /// The types of the function's parameters.
    pub params: &'a [ValType],
    /// The function's further locals.
    pub locals: &'a [LocalGroup],
    /// How many of these there are up to each group and with it.
    pub ends: &'a [usize],
    /// The type of the function's result, if any.
    pub result: Option<ValType>,
    ghost ends_match: { ends.now ≡ ends_from 0 locals.now },
}

impl Context<'_> {
    ghost use Rattle.wasm_validate.specs.Context.{context};

    /// The type of a local, parameters first (3.3.3).
    fn local(&self, index: u32) -> Option<ValType>
        ensures { result ≡ local_type self.now.params.now self.now.locals.now index }
    {
        let index = index as usize;
        if index < self.params.len() {
            return Some(self.params[index]);
        }
        group(self.locals, self.ends, index - self.params.len())
    }

    /// The type of a function.
    pub fn function(&self, index: u32) -> Option<&FuncType>
        ensures { option_copied result ≡ function_type (context self.now) index }
    {
        let of = *self.functions.get(index as usize)?;
        self.types.get(of as usize)
    }

    /// What a variable instruction leaves (3.3.3).
    pub fn after_variable(
        &self,
        blocks: &mut Blocks,
        op: VariableOp,
        index: u32,
    ) -> Result<bool, AllocError>
        ensures operands { IfOk result (λ fits. ended fits blocks.new.operands ≡ after_variable (context self.now) op index blocks.old.operands) }
        ensures enclosing { blocks.new.enclosing ≡ blocks.old.enclosing }
    {
        match op {
            VariableOp::LocalGet => match self.local(index) {
                None => Ok(false),
                Some(of) => {
                    blocks.push(Some(of))?;
                    Ok(true)
                }
            },
            VariableOp::LocalSet => match self.local(index) {
                None => Ok(false),
                Some(of) => Ok(blocks.expect(of)),
            },
            VariableOp::LocalTee => match self.local(index) {
                None => Ok(false),
                Some(of) => blocks.apply(&[of], &[of]),
            },
            VariableOp::GlobalGet => match self.globals.get(index as usize) {
                None => Ok(false),
                Some(global) => {
                    blocks.push(Some(global.0))?;
                    Ok(true)
                }
            },
            VariableOp::GlobalSet => match self.globals.get(index as usize) {
                None => Ok(false),
                Some(global) => Ok(global.1 && blocks.expect(global.0)),
            },
        }
    }
}

/// How many locals there are up to each group and with it.
pub fn ends(alloc: Global, groups: &[LocalGroup]) -> Result<Vec<usize>, AllocError>
    requires { total groups.now < 2 ^ 32 }
    ensures { IfOk result (λ all. all.items ≡ ends_from 0 groups.now) }
{
    let mut all = Vec::new(alloc);
    let mut end = 0;
    for group in groups {
        end += group.count as usize;
        all.push(end)?;
    }
    Ok(all)
}

/// The type of the local of that number among groups of locals, whose ends are these.
fn group(groups: &[LocalGroup], ends: &[usize], index: usize) -> Option<ValType>
    requires { ends.now ≡ ends_from 0 groups.now }
    ensures { result ≡ group_type groups.now index }
{
    let mut low = 0;
    let mut high = ends.len();
    while low < high {
        let middle = low + (high - low) / 2;
        if ends[middle] <= index {
            low = middle + 1;
        } else {
            high = middle;
        }
    }
    if low < groups.len() {
        Some(groups[low].of)
    } else {
        None
    }
}

/// Behind the values that an unconditional branch takes (3.3.5).
pub fn branch(blocks: &mut Blocks, of: Option<ValType>) -> bool
    ensures operands { ended result blocks.new.operands ≡ branched of blocks.old.operands }
    ensures enclosing { blocks.new.enclosing ≡ blocks.old.enclosing }
{
    if !blocks.expect_value(of) {
        return false;
    }
    blocks.become_unreachable();
    true
}

/// Whether two labels take the same.
fn is_same_label(x: Option<ValType>, y: Option<ValType>) -> bool
    ensures { result ≡ same_label x y }
{
    match (x, y) {
        (None, None) => true,
        (Some(t), Some(u)) => t.is(u),
        (None, Some(_)) | (Some(_), None) => false,
    }
}

/// Whether the label is there, and takes that.
fn is_taken(label: Option<Option<ValType>>, of: Option<ValType>) -> bool
    ensures { result ≡ takes label of }
{
    match label {
        None => false,
        Some(found) => is_same_label(found, of),
    }
}

/// What the default label of a branch table takes, where all its labels take the same (3.3.5).
pub fn table_value(blocks: &Blocks, targets: &Targets) -> Option<Option<ValType>>
    ensures { result ≡ table_label (labels_of blocks.now.enclosing) targets.now.0 targets.now.1 }
{
    let of = blocks.label(targets.default())?;
    for label in targets.labels() {
        if !is_taken(blocks.label(*label), of) {
            return None;
        }
    }
    Some(of)
}

/// The type that two operands of one type have.
fn join(x: Option<ValType>, y: Option<ValType>) -> Option<Option<ValType>>
    ensures { result ≡ joined x y }
{
    match (x, y) {
        (None, y) => Some(y),
        (Some(t), None) => Some(Some(t)),
        (Some(t), Some(u)) => if t.is(u) { Some(Some(t)) } else { None },
    }
}

/// What `select` leaves (3.3.2).
pub fn select(blocks: &mut Blocks) -> Result<bool, AllocError>
    ensures operands { IfOk result (λ fits. ended fits blocks.new.operands ≡ selected blocks.old.operands) }
    ensures enclosing { blocks.new.enclosing ≡ blocks.old.enclosing }
{
    if !blocks.expect(ValType::I32) {
        return Ok(false);
    }
    let Some(second) = blocks.pop() else {
        return Ok(false);
    };
    let Some(first) = blocks.pop() else {
        return Ok(false);
    };
    let Some(of) = join(second, first) else {
        return Ok(false);
    };
    blocks.push(of)?;
    Ok(true)
}

/// Whether an access may have that alignment, by its exponent (3.3.4, and the threads proposal).
pub fn may_align(op: Access, align: u32) -> bool
    ensures { result ≡ is_aligned op align }
{
    if op.is_atomic() {
        align == op.exponent()
    } else {
        align <= op.exponent()
    }
}
