// The rules of a module's parts: WebAssembly Core 1.0, sections 3.2 and 3.4, and the threads proposal.
ghost use Rattle.std.specs.Prelude.{◌≡◌, IfOk, true, false};
ghost use Rattle.std.specs.List.{list_all};
ghost use Rattle.wasm_ast.specs.declared.module.Import.{Import};
ghost use Rattle.wasm_ast.specs.declared.module.Export.{Export};
ghost use Rattle.wasm_ast.specs.TypingModule.{is_function_type, is_within, has_greatest, is_table, is_memory, is_import, is_immutable, is_constant_instruction, are_constant, is_constant, is_export, is_start, takes_and_gives_nothing, are_different};
ghost use Rattle.wasm_validate.specs.Context.{context};

use super::context::Context;
use std::alloc::{AllocError, Global};
use std::collections::BTreeMap;
use wasm_ast::{
    Body, Export, ExportKind, FuncType, Import, ImportKind, Instr, Limits, Module, ValType,
    VariableOp,
};

/// Whether each function type has at most one result (3.2.3).
pub fn are_function_types(types: &[FuncType]) -> bool
    ensures { result ≡ list_all is_function_type types.now }
{
    types.iter().all(|of| of.results.len() <= 1)
}

/// Whether limits are in order and within a bound (3.2.1).
fn is_within(bound: u64, least: u32, greatest: Option<u32>) -> bool
    ensures { result ≡ is_within bound least greatest }
{
    match greatest {
        None => u64::from(least) <= bound,
        Some(greatest) => least <= greatest && u64::from(greatest) <= bound,
    }
}

/// Whether limits are those of a table (3.2.4).
fn is_table(limits: Limits) -> bool
    ensures { result ≡ is_table limits }
{
    is_within(1 << 32, limits.min, limits.max) && !limits.shared
}

/// Whether limits are those of a memory (3.2.5).
fn is_memory(limits: Limits) -> bool
    ensures { result ≡ is_memory limits }
{
    is_within(65_536, limits.min, limits.max) && (!limits.shared || limits.max.is_some())
}

/// Whether all limits are those of tables.
pub fn are_tables(tables: &[Limits]) -> bool
    ensures { result ≡ list_all is_table tables.now }
{
    tables.iter().all(|limits| is_table(*limits))
}

/// Whether all limits are those of memories.
pub fn are_memories(memories: &[Limits]) -> bool
    ensures { result ≡ list_all is_memory memories.now }
{
    memories.iter().all(|limits| is_memory(*limits))
}

/// Whether a module may have such an import (3.4.9).
fn is_import(checked: &Module, kind: ImportKind) -> bool
    ensures { result ≡ is_import checked.now kind }
{
    match kind {
        ImportKind::Func(of) => (of as usize) < checked.types.len(),
        ImportKind::Table(limits) => is_table(limits),
        ImportKind::Memory(limits) => is_memory(limits),
        ImportKind::Global { .. } => true,
    }
}

/// Whether a module may have its imports (3.4.9).
pub fn are_imports(checked: &Module) -> bool
    ensures { result ≡ list_all (λ (i : Import). is_import checked.now i.kind) checked.now.imports }
{
    let imports = checked.imports.as_slice();
    imports.iter().all(|import| is_import(checked, import.kind))
}

impl Context<'_> {
    /// Whether an expression is constant and of that type, where it may name these globals (3.3.7).
    pub fn is_constant(
        &self,
        alloc: Global,
        globals: &[(ValType, bool)],
        of: ValType,
        body: &Body,
    ) -> Result<bool, AllocError>
        ensures { IfOk result (λ constant. constant ≡ is_constant (context self.now) globals.now of body.now) }
    {
        if !are_constant(globals, body) {
            return Ok(false);
        }
        let context = Context {
            types: self.types,
            functions: self.functions,
            tables: self.tables,
            memories: self.memories,
            globals,
            params: &[],
            locals: &[],
            ends: &[],
            result: Some(of),
        };
        context.is_body(alloc, body)
    }

    /// Whether what an export names is there (3.4.8).
    fn is_export(&self, kind: ExportKind) -> bool
        ensures { result ≡ is_export (context self.now) kind }
    {
        match kind {
            ExportKind::Func(x) => (x as usize) < self.functions.len(),
            ExportKind::Table(x) => (x as usize) < self.tables,
            ExportKind::Memory(x) => (x as usize) < self.memories,
            ExportKind::Global(x) => (x as usize) < self.globals.len(),
        }
    }

    /// Whether what each export names is there (3.4.8).
    pub fn are_exports(&self, exports: &[Export]) -> bool
        ensures { result ≡ list_all (λ (e : Export). is_export (context self.now) e.kind) exports.now }
    {
        exports.iter().all(|export| self.is_export(export.kind))
    }

    /// Whether the function that is run at the start takes and gives nothing (3.4.7).
    pub fn is_start(&self, start: Option<u32>) -> bool
        ensures { result ≡ is_start (context self.now) start }
    {
        let Some(function) = start else {
            return true;
        };
        match self.function(function) {
            None => false,
            Some(of) => of.params.is_empty() && of.results.is_empty(),
        }
    }
}

/// Whether an instruction is constant, where it may name these globals (3.3.7).
fn is_constant_instruction(globals: &[(ValType, bool)], instr: &Instr) -> bool
    ensures { result ≡ is_constant_instruction globals.now instr.now }
{
    match instr {
        Instr::I32Const(_) | Instr::I64Const(_) => true,
        Instr::Variable(VariableOp::GlobalGet, x) => match globals.get(*x as usize) {
            None => false,
            Some(global) => !global.1,
        },
        _ => false,
    }
}

/// Whether all of some instructions are constant.
fn are_constant_instructions(globals: &[(ValType, bool)], list: &[Instr]) -> bool
    ensures { result ≡ list_all (is_constant_instruction globals.now) list.now }
{
    list.iter()
        .all(|instr| is_constant_instruction(globals, instr))
}

/// Whether all instructions of an expression are constant (3.3.7).
fn are_constant(globals: &[(ValType, bool)], body: &Body) -> bool
    ensures { result ≡ are_constant globals.now body.now }
{
    are_constant_instructions(globals, body.list(0))
}

/// Whether no name is exported twice (3.4.10).
pub fn are_different(alloc: Global, exports: &[Export]) -> Result<bool, AllocError>
    ensures { IfOk result (λ different. different ≡ are_different exports.now) }
{
    let mut names: BTreeMap<&[u8], ()> = BTreeMap::new(alloc);
    let mut left = exports.len();
    while left > 0 {
        left -= 1;
        if names.insert(exports[left].name.as_slice(), ())?.is_some() {
            return Ok(false);
        }
    }
    Ok(true)
}
