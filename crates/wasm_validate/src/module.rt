// Whether a module is typed: WebAssembly Core 1.0, section 3.4.
ghost use Rattle.std.specs.Prelude.{◌≡◌, ◌++◌, IfOk, nat_lt, length, slice_get};
ghost use Rattle.std.specs.List.{list_all};
ghost use Rattle.wasm_ast.specs.TypingModule.{context_of, functions_of, globals_of, is_global, is_element, is_segment, is_function_of, are_functions, is_declared, is_defined, is_typed};
ghost use Rattle.wasm_validate.specs.Context.{context};

use super::context::{Context, ends};
use super::imported;
use super::rules::{are_different, are_function_types, are_imports, are_memories, are_tables};
use std::alloc::{AllocError, Global};
use wasm_ast::{Code, Element, GlobalVar, Module, Segment, ValType};

/// Whether a module is typed, where the index of the type of each function is known, imported ones first (3.4.10).
pub fn is_module(alloc: Global, checked: &Module, functions: &[u32]) -> Result<bool, AllocError>
    requires { functions.now ≡ functions_of checked.now.imports ++ checked.now.functions }
    ensures { IfOk result (λ typed. typed ≡ is_typed checked.now) }
{
    let imports = checked.imports.as_slice();
    let imported = imported::globals(alloc, imports)?;
    let globals = imported::all_globals(alloc, imported.as_slice(), checked.globals.as_slice())?;
    let context = Context {
        types: checked.types.as_slice(),
        functions,
        tables: imported::tables(imports) + checked.tables.as_slice().len(),
        memories: imported::memories(imports) + checked.memories.as_slice().len(),
        globals: globals.as_slice(),
        params: &[],
        locals: &[],
        ends: &[],
        result: None,
    };
    context.is_typed(alloc, imported.as_slice(), checked)
}

impl Context<'_> {
    /// Whether the module of this context is typed.
    fn is_typed(
        &self,
        alloc: Global,
        imported: &[(ValType, bool)],
        checked: &Module,
    ) -> Result<bool, AllocError>
        requires context { context self.now ≡ context_of checked.now }
        requires imported { imported.now ≡ globals_of checked.now.imports }
        ensures { IfOk result (λ typed. typed ≡ is_typed checked.now) }
    {
        Ok(self.is_declared(checked) && self.is_defined(alloc, imported, checked)?)
    }

    /// Whether what the module declares without instructions is right.
    fn is_declared(&self, checked: &Module) -> bool
        ensures { result ≡ is_declared (context self.now) checked.now }
    {
        are_function_types(checked.types.as_slice())
            && are_imports(checked)
            && are_tables(checked.tables.as_slice())
            && are_memories(checked.memories.as_slice())
            && self.tables <= 1
            && self.memories <= 1
            && self.are_exports(checked.exports.as_slice())
            && self.is_start(checked.start)
    }

    /// Whether what the module defines by instructions is right, and its exports have different names.
    fn is_defined(
        &self,
        alloc: Global,
        imported: &[(ValType, bool)],
        checked: &Module,
    ) -> Result<bool, AllocError>
        ensures { IfOk result (λ defined. defined ≡ is_defined (context self.now) imported.now checked.now) }
    {
        let codes = checked.codes.as_slice();
        Ok(
            are_different(alloc, checked.exports.as_slice())?
                && self.are_globals(alloc, imported, checked.globals.as_slice())?
                && self.are_elements(alloc, checked.elements.as_slice())?
                && self.are_segments(alloc, checked.segments.as_slice())?
                && self.are_functions(alloc, checked.functions.as_slice(), codes)?,
        )
    }

    /// Whether the first value of each global is a constant of its type (3.4.4).
    fn are_globals(
        &self,
        alloc: Global,
        imported: &[(ValType, bool)],
        globals: &[GlobalVar],
    ) -> Result<bool, AllocError>
        ensures { IfOk result (λ fit. fit ≡ list_all (is_global (context self.now) imported.now) globals.now) }
    {
        for global in globals {
            if !self.is_constant(alloc, imported, global.of, &global.init)? {
                return Ok(false);
            }
        }
        Ok(true)
    }

    /// Whether all are indices of functions.
    fn are_indices(&self, functions: &[u32]) -> bool
        ensures { result ≡ list_all (λ x. nat_lt x (length self.now.functions.now)) functions.now }
    {
        for function in functions {
            if *function as usize >= self.functions.len() {
                return false;
            }
        }
        true
    }

    /// Whether a table may have such a segment (3.4.5).
    fn is_element(&self, alloc: Global, element: &Element) -> Result<bool, AllocError>
        ensures { IfOk result (λ fits. fits ≡ is_element (context self.now) element.now) }
    {
        Ok(
            (element.table as usize) < self.tables
                && self.is_constant(alloc, self.globals, ValType::I32, &element.offset)?
                && self.are_indices(element.functions.as_slice()),
        )
    }

    /// Whether tables may have such segments.
    fn are_elements(&self, alloc: Global, elements: &[Element]) -> Result<bool, AllocError>
        ensures { IfOk result (λ fit. fit ≡ list_all (is_element (context self.now)) elements.now) }
    {
        for element in elements {
            if !self.is_element(alloc, element)? {
                return Ok(false);
            }
        }
        Ok(true)
    }

    /// Whether a memory may have such a segment (3.4.6).
    fn is_segment(&self, alloc: Global, segment: &Segment) -> Result<bool, AllocError>
        ensures { IfOk result (λ fits. fits ≡ is_segment (context self.now) segment.now) }
    {
        Ok(
            (segment.memory as usize) < self.memories
                && self.is_constant(alloc, self.globals, ValType::I32, &segment.offset)?,
        )
    }

    /// Whether memories may have such segments.
    fn are_segments(&self, alloc: Global, segments: &[Segment]) -> Result<bool, AllocError>
        ensures { IfOk result (λ fit. fit ≡ list_all (is_segment (context self.now)) segments.now) }
    {
        for segment in segments {
            if !self.is_segment(alloc, segment)? {
                return Ok(false);
            }
        }
        Ok(true)
    }

    /// Whether a function of the type of that index may have such locals and instructions (3.4.1).
    fn is_function(&self, alloc: Global, of: u32, code: &Code) -> Result<bool, AllocError>
        ensures { IfOk result (λ fits. fits ≡ is_function_of (context self.now) code.now (slice_get self.now.types.now of)) }
    {
        let Some(of) = self.types.get(of as usize) else {
            return Ok(false);
        };
        let ends = ends(alloc, code.locals.groups())?;
        let context = Context {
            types: self.types,
            functions: self.functions,
            tables: self.tables,
            memories: self.memories,
            globals: self.globals,
            params: of.params.as_slice(),
            locals: code.locals.groups(),
            ends: ends.as_slice(),
            result: of.results.as_slice().first().copied(),
        };
        context.is_body(alloc, &code.body)
    }

    /// Whether each function of the module may have its locals and instructions.
    fn are_functions(
        &self,
        alloc: Global,
        functions: &[u32],
        codes: &[Code],
    ) -> Result<bool, AllocError>
        ensures { IfOk result (λ fit. fit ≡ are_functions (context self.now) functions.now codes.now) }
    {
        if functions.len() != codes.len() {
            return Ok(false);
        }
        for i in 0..functions.len() {
            if !self.is_function(alloc, functions[i], &codes[i])? {
                return Ok(false);
            }
        }
        Ok(true)
    }
}
