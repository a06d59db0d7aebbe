// What the steps of a function mean: WebAssembly Core 1.0, section 6.5.
ghost use Rattle.std.specs.Prelude.{◌≡◌, ◌∷◌, map, Some, None, IfOk};
ghost use Rattle.wasm_ast.specs.Built.{NamesNone, with_open};
ghost use Rattle.wat_meaning.specs.Meaning.{all_some};
ghost use Rattle.wat_spaces.specs.Spaces.{index_in};
ghost use Rattle.wat_syntax.specs.Seen.{seen_name, seen_reference};
ghost use Rattle.wat_syntax.specs.Flat.{seen_plain, seen_step, seen_steps, One, Open, Else, End};
ghost use Rattle.wat_meaning.specs.Steps.{walked, finished, variable_for, table_for, plain_for, else_for, end_for, after, body_for};
ghost use Rattle.wat_spaces.specs.Means.{Means};

use std::alloc::{AllocError, Global};
use wasm_ast::{Body, BodyBuilder, Construct, Instr, Targets, ValType, VariableOp};
use wat_spaces::{Bindings, Labels, LocalNames, Unmeant, bound, type_index};
use wat_syntax::{Plain, Reference, Step};

/// The labels of the blocks that are open, and what stands in front.
#[derive(Drop)]
pub(crate) struct Walked<'a> {
    labels: Labels<'a>,
    built: BodyBuilder,
}

/// The index of a local or a global.
fn variable_index(
    bindings: &Bindings<'_>,
    locals: &LocalNames<'_>,
    op: VariableOp,
    index: Reference<'_>,
) -> Result<u32, Unmeant>
    ensures { Means (λ n. n) result (variable_for bindings.now locals.now op (seen_reference index.entry)) }
{
    match op {
        VariableOp::LocalGet => locals.index_of(index),
        VariableOp::LocalSet => locals.index_of(index),
        VariableOp::LocalTee => locals.index_of(index),
        VariableOp::GlobalGet => bound(bindings.names.globals.index_of(index)),
        VariableOp::GlobalSet => bound(bindings.names.globals.index_of(index)),
    }
}

/// The labels that references mean, each counted from the innermost.
fn label_indices(
    alloc: Global,
    labels: &Labels<'_>,
    references: &[Reference<'_>],
) -> Result<Vec<u32>, Unmeant>
    ensures { Means (λ indices. indices.items) result (all_some (map (index_in labels.now) (map seen_reference references.now))) }
{
    let mut indices = Vec::new(alloc);
    for reference in references {
        match labels.index_of(*reference) {
            None => return Err(Unmeant::Name),
            Some(index) => indices.push(index)?,
        }
    }
    Ok(indices)
}

/// A branch by a table (6.5.2).
fn table_of(
    alloc: Global,
    labels: &Labels<'_>,
    targets: &[Reference<'_>],
    default: Reference<'_>,
) -> Result<Instr, Unmeant>
    ensures means { Means (λ i. i) result (table_for labels.now (map seen_reference targets.now) (seen_reference default.entry)) }
    ensures simple { IfOk result (λ i. NamesNone i) }
{
    let targets = label_indices(alloc, labels, targets)?;
    let default = bound(labels.index_of(default))?;
    Ok(Instr::BrTable(Targets::new(alloc, targets, default)?))
}

/// An instruction without inner instructions.
fn plain_of(
    alloc: Global,
    bindings: &Bindings<'_>,
    locals: &LocalNames<'_>,
    labels: &Labels<'_>,
    plain: &Plain<'_>,
) -> Result<Instr, Unmeant>
    ensures means { Means (λ i. i) result (plain_for bindings.now locals.now labels.now (seen_plain plain.now)) }
    ensures simple { IfOk result (λ i. NamesNone i) }
{
    match plain {
        Plain::Alone(simple) => Ok(simple.instr(alloc)?),
        Plain::Br(label) => Ok(Instr::Br(bound(labels.index_of(*label))?)),
        Plain::BrIf(label) => Ok(Instr::BrIf(bound(labels.index_of(*label))?)),
        Plain::BrTable(targets, default) => table_of(alloc, labels, targets.as_slice(), *default),
        Plain::Call(function) => Ok(Instr::Call(bound(
            bindings.names.functions.index_of(*function),
        )?)),
        Plain::CallIndirect(of) => Ok(Instr::CallIndirect(type_index(
            alloc,
            &bindings.names.types,
            &bindings.of,
            of,
        )?)),
        Plain::OnVariable(op, index) => Ok(Instr::Variable(
            *op,
            variable_index(bindings, locals, *op, *index)?,
        )),
    }
}

impl<'a> Walked<'a> {
    /// Behind an instruction without inner instructions.
    fn plain(
        self,
        alloc: Global,
        bindings: &Bindings<'_>,
        locals: &LocalNames<'_>,
        plain: &Plain<'_>,
    ) -> Result<Walked<'a>, Unmeant>
        ensures { Means (λ w. w) result (after bindings.now locals.now (One (seen_plain plain.now)) self.entry) }
    {
        let Walked { labels, mut built } = self;
        let instr = plain_of(alloc, bindings, locals, &labels, plain)?;
        built.plain(instr)?;
        Ok(Walked { labels, built })
    }

    /// Inside a block, a loop or the first arm of an if.
    fn open(
        self,
        alloc: Global,
        of: Construct,
        label: Option<&'a [u8]>,
        leaves: Option<ValType>,
    ) -> Result<Walked<'a>, AllocError>
        ensures { IfOk result (λ w. w ≡ walked (seen_name label.entry ∷ self.entry.labels) (with_open of leaves self.entry.built)) }
    {
        let Walked { labels, mut built } = self;
        built.open(alloc, of, leaves)?;
        let labels = labels.with(alloc, label)?;
        Ok(Walked { labels, built })
    }

    /// Inside the second arm of an if.
    fn second_arm(self, alloc: Global, label: Option<&[u8]>) -> Result<Walked<'a>, Unmeant>
        ensures { Means (λ w. w) result (else_for (seen_name label.entry) self.entry.labels self.entry.built) }
    {
        let Walked { labels, mut built } = self;
        if !built.takes_else() || !labels.is_repeated(label) {
            return Err(Unmeant::Name);
        }
        built.else_(alloc)?;
        Ok(Walked { labels, built })
    }

    /// Behind the end of a block.
    fn end(self, alloc: Global, label: Option<&[u8]>) -> Result<Walked<'a>, Unmeant>
        ensures { Means (λ w. w) result (end_for (seen_name label.entry) self.entry.labels self.entry.built) }
    {
        let Walked { labels, mut built } = self;
        if !built.is_inside() || !labels.is_repeated(label) {
            return Err(Unmeant::Name);
        }
        built.end(alloc)?;
        let labels = labels.outside(alloc)?;
        Ok(Walked { labels, built })
    }

    /// Behind a step.
    fn after(
        self,
        alloc: Global,
        bindings: &Bindings<'_>,
        locals: &LocalNames<'_>,
        step: &Step<'a>,
    ) -> Result<Walked<'a>, Unmeant>
        ensures { Means (λ w. w) result (after bindings.now locals.now (seen_step step.now) self.entry) }
    {
        match step {
            Step::Plain(plain) => self.plain(alloc, bindings, locals, plain),
            Step::Open { of, label, leaves } => Ok(self.open(alloc, *of, *label, *leaves)?),
            Step::Else { label } => self.second_arm(alloc, *label),
            Step::End { label } => self.end(alloc, *label),
        }
    }

    /// The body, where no block is open.
    fn finished(self) -> Result<Body, Unmeant>
        ensures { Means (λ b. b) result (finished self.entry) }
    {
        let Walked { built, .. } = self;
        if built.is_inside() {
            return Err(Unmeant::Name);
        }
        Ok(built.finish())
    }
}

/// The body that steps are.
pub fn body_of(
    alloc: Global,
    bindings: &Bindings<'_>,
    locals: &LocalNames<'_>,
    steps: &[Step<'_>],
) -> Result<Body, Unmeant>
    ensures { Means (λ b. b) result (body_for bindings.now locals.now (seen_steps steps.now)) }
{
    let mut walked = Walked {
        labels: Labels::new(alloc),
        built: BodyBuilder::new(alloc)?,
    };
    for step in steps {
        walked = walked.after(alloc, bindings, locals, step)?;
    }
    walked.finished()
}
