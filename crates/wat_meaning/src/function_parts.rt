// The locals of functions: WebAssembly Core 1.0, section 6.6.5.
ghost use Rattle.std.specs.Prelude.{◌≡◌, IfOk};
ghost use Rattle.wat_meaning.specs.Meaning.{groups};
ghost use Rattle.wat_syntax.specs.Seen.{seen_variables};
ghost use Rattle.wat_meaning.specs.Locals.{distinct_behind, variable_names, unnamed_params, both_distinct, locals_for};
ghost use Rattle.wat_spaces.specs.Means.{Means};

use std::alloc::{AllocError, Global};
use wasm_ast::{FuncType, Locals};
use wat_spaces::{LocalNames, Names, Unmeant};
use wat_syntax::Variable;

/// With the names of variables behind others, where all differ.
pub fn with_distinct<'a>(
    alloc: Global,
    names: Names<'a>,
    variables: &[Variable<'a>],
) -> Result<Names<'a>, Unmeant>
    ensures { Means (λ n. n) result (distinct_behind names.entry (variable_names (seen_variables variables.now))) }
{
    let mut names = names;
    for variable in variables {
        if names.is_taken(variable.name) {
            return Err(Unmeant::Name);
        }
        names = names.with(alloc, variable.name)?;
    }
    Ok(names)
}

/// The names of variables and then of others, where all differ.
fn both_distinct<'a>(
    alloc: Global,
    first: &[Variable<'a>],
    second: &[Variable<'a>],
) -> Result<Names<'a>, Unmeant>
    ensures { Means (λ n. n) result (both_distinct (seen_variables first.now) (seen_variables second.now)) }
{
    let names = with_distinct(alloc, Names::new(alloc), first)?;
    with_distinct(alloc, names, second)
}

/// How many parameters only a type says.
fn unnamed_params(params: &[Variable<'_>], of: &FuncType) -> usize
    ensures { result ≡ unnamed_params of.now (seen_variables params.now) }
{
    if params.is_empty() {
        of.params.len()
    } else {
        0
    }
}

/// The names of the parameters and locals of a function of a type, where all differ.
pub fn local_names<'a>(
    alloc: Global,
    of: &FuncType,
    params: &[Variable<'a>],
    locals: &[Variable<'a>],
) -> Result<LocalNames<'a>, Unmeant>
    ensures { Means (λ n. n) result (locals_for of.now (seen_variables params.now) (seen_variables locals.now)) }
{
    let names = both_distinct(alloc, params, locals)?;
    let unnamed = unnamed_params(params, of);
    Ok(LocalNames { unnamed, names })
}

/// Locals as groups. As many as there are no numbers for are want of memory.
pub fn groups_of(alloc: Global, locals: &[Variable<'_>]) -> Result<Locals, AllocError>
    ensures { IfOk result (λ made. made ≡ groups (seen_variables locals.now)) }
{
    if locals.len() > u32::MAX as usize {
        return Err(AllocError);
    }
    let mut made = Locals::new(alloc);
    for local in locals {
        made.add(1, local.of)?;
    }
    Ok(made)
}
