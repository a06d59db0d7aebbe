// Instructions with their immediates: WebAssembly Core 1.0, section 6.5.
ghost use Rattle.std.specs.Prelude.{◌≡◌, map};
ghost use Rattle.std.specs.Option.{option_map};
ghost use Rattle.wasm_ast.specs.Built.{NamesNone};
ghost use Rattle.wat_immediates.specs.PlainForms.{references_of};
ghost use Rattle.wat_syntax.specs.Immediates.{whole, identifier_front};
ghost use Rattle.wat_immediates.specs.PlainForms.{none, table, one_argument, argument, are_nameless, access, indirect, number, one, plain_of};
ghost use Rattle.wat_immediates.specs.InstructionForms.{One, Elses, Ends, opens, part_of};
ghost use Rattle.wat_syntax.specs.Flat.{seen_plain};
ghost use Rattle.wat_fields.specs.Items.{Word, Empty};
ghost use Rattle.wat_names.specs.declared.named.Named.TheVariants as named;
ghost use Rattle.wat_immediates.specs.Rows.{immediates, seen_part, ReadsFront};
ghost use Rattle.wat_syntax.specs.Seen.{at_place, seen_name, seen_reference, seen_variables};

use super::arguments::{align_of, offset_of};
use super::immediates::{
    immediate_at, label_at, one_immediate, one_index, whole_result, whole_use,
};
use std::alloc::Global;
use wasm_ast::{Access, BlockKind, Construct, Instr, MemArg};
use wat_fields::{Fields, Item, Place};
use wat_names::Named;
use wat_syntax::{Plain, Reference, Refusal, Simple, Step, Variable, reference_of};
use wat_words::{i32_of, i64_of};

/// An instruction without immediates.
fn alone<'a>(fields: &Fields<'_>, at: Place, i: Instr) -> Result<(Plain<'a>, Place), Refusal>
    requires { NamesNone i }
    ensures { ReadsFront seen_plain fields.now (at_place fields.now at) result (none i (immediates (at_place fields.now at))) }
{
    match immediate_at(fields, at) {
        Some(met) => match met.item {
            Item::Word(_) => Err(Refusal::Form),
            Item::Text(_) => Err(Refusal::Form),
            Item::Group(_, _) => Err(Refusal::Form),
        },
        None => Ok((Plain::Alone(Simple::new(i)), at)),
    }
}

/// Immediates that are indices or identifiers alone, and the place behind them.
fn indices_at<'a>(
    fields: &Fields<'a>,
    alloc: Global,
    at: Place,
) -> Result<(Vec<Reference<'a>>, Place), Refusal>
    ensures { ReadsFront (λ xs. map seen_reference xs.items) fields.now (at_place fields.now at) result (references_of (immediates (at_place fields.now at))) }
{
    let mut indices = Vec::new(alloc);
    let mut at = at;
    while let Some(met) = immediate_at(fields, at) {
        match met.item {
            Item::Word(word) => match reference_of(word) {
                Some(x) => indices.push(x)?,
                None => return Err(Refusal::Form),
            },
            Item::Text(_) => return Err(Refusal::Form),
            Item::Group(_, _) => return Err(Refusal::Form),
        }
        at = met.behind;
    }
    Ok((indices, at))
}

/// A branch by a table: its labels, the last of which is the default (6.5.2).
fn table_at<'a>(
    fields: &Fields<'a>,
    alloc: Global,
    at: Place,
) -> Result<(Plain<'a>, Place), Refusal>
    ensures { ReadsFront seen_plain fields.now (at_place fields.now at) result (table (immediates (at_place fields.now at))) }
{
    match indices_at(fields, alloc, at) {
        Ok((mut labels, behind)) => match labels.pop() {
            Some(default) => Ok((Plain::BrTable(labels, default), behind)),
            None => Err(Refusal::Form),
        },
        Err(why) => Err(why),
    }
}

/// An access to memory with this alignment and offset.
fn access<'a>(op: Access, align: u32, offset: u32) -> Plain<'a>
    ensures { seen_plain result ≡ access op align offset }
{
    Plain::Alone(Simple::new(Instr::Access(op, MemArg { align, offset })))
}

/// An access to memory with its offset or its alignment (6.5.5).
fn one_argument<'a>(op: Access, word: &[u8]) -> Option<Plain<'a>>
    ensures { option_map seen_plain result ≡ one_argument op word.now }
{
    if word.starts_with(b"offset=".as_slice()) {
        return match offset_of(word) {
            Some(offset) => Some(access(op, op.exponent(), offset)),
            None => None,
        };
    }
    match align_of(word) {
        Some(align) => Some(access(op, align, 0)),
        None => None,
    }
}

/// An access to memory with an offset and an alignment (6.5.5).
fn two_arguments<'a>(op: Access, first: &[u8], second: &[u8]) -> Option<Plain<'a>>
    ensures { option_map seen_plain result ≡ argument op (Word first.now (Word second.now Empty)) }
{
    match offset_of(first) {
        Some(offset) => match align_of(second) {
            Some(align) => Some(access(op, align, offset)),
            None => None,
        },
        None => None,
    }
}

/// An access to memory, behind the first word of its immediates.
fn access_behind<'a>(
    fields: &Fields<'_>,
    op: Access,
    first: &[u8],
    at: Place,
) -> Result<(Plain<'a>, Place), Refusal>
    ensures { ReadsFront seen_plain fields.now (at_place fields.now at) result (argument op (Word first.now (immediates (at_place fields.now at)))) }
{
    match immediate_at(fields, at) {
        Some(met) => match met.item {
            Item::Word(second) => match immediate_at(fields, met.behind) {
                Some(more) => match more.item {
                    Item::Word(_) => Err(Refusal::Form),
                    Item::Text(_) => Err(Refusal::Form),
                    Item::Group(_, _) => Err(Refusal::Form),
                },
                None => match two_arguments(op, first, second) {
                    Some(i) => Ok((i, met.behind)),
                    None => Err(Refusal::Form),
                },
            },
            Item::Text(_) => Err(Refusal::Form),
            Item::Group(_, _) => Err(Refusal::Form),
        },
        None => match one_argument(op, first) {
            Some(i) => Ok((i, at)),
            None => Err(Refusal::Form),
        },
    }
}

/// An access to memory: `offset=n`? `align=n`? (6.5.5).
fn access_at<'a>(fields: &Fields<'_>, op: Access, at: Place) -> Result<(Plain<'a>, Place), Refusal>
    ensures { ReadsFront seen_plain fields.now (at_place fields.now at) result (argument op (immediates (at_place fields.now at))) }
{
    match immediate_at(fields, at) {
        Some(met) => match met.item {
            Item::Word(first) => access_behind(fields, op, first, met.behind),
            Item::Text(_) => Err(Refusal::Form),
            Item::Group(_, _) => Err(Refusal::Form),
        },
        None => Ok((access(op, op.exponent(), 0), at)),
    }
}

/// Whether no parameter has an identifier.
fn are_nameless(params: &[Variable<'_>]) -> bool
    ensures { result ≡ are_nameless (seen_variables params.now) }
{
    for v in params {
        if v.name.is_some() {
            return false;
        }
    }
    true
}

/// A call by a table, with the use of its type (6.5.2).
fn indirect_at<'a>(
    fields: &Fields<'a>,
    alloc: Global,
    at: Place,
) -> Result<(Plain<'a>, Place), Refusal>
    ensures { ReadsFront seen_plain fields.now (at_place fields.now at) result (plain_of named.CallIndirect (immediates (at_place fields.now at))) }
{
    let (of, behind) = whole_use(fields, alloc, at)?;
    if are_nameless(of.params.as_slice()) {
        Ok((Plain::CallIndirect(of), behind))
    } else {
        Err(Refusal::Form)
    }
}

/// A plain instruction (6.5).
fn plain_at<'a>(
    fields: &Fields<'a>,
    alloc: Global,
    n: Named,
    at: Place,
) -> Result<(Plain<'a>, Place), Refusal>
    ensures { ReadsFront seen_plain fields.now (at_place fields.now at) result (plain_of n (immediates (at_place fields.now at))) }
{
    match n {
        Named::Unreachable => alone(fields, at, Instr::Unreachable),
        Named::Nop => alone(fields, at, Instr::Nop),
        Named::Block => Err(Refusal::Form),
        Named::Loop => Err(Refusal::Form),
        Named::If => Err(Refusal::Form),
        Named::Else => Err(Refusal::Form),
        Named::End => Err(Refusal::Form),
        Named::Br => match one_index(fields, at) {
            Some((x, behind)) => Ok((Plain::Br(x), behind)),
            None => Err(Refusal::Form),
        },
        Named::BrIf => match one_index(fields, at) {
            Some((x, behind)) => Ok((Plain::BrIf(x), behind)),
            None => Err(Refusal::Form),
        },
        Named::BrTable => table_at(fields, alloc, at),
        Named::Return => alone(fields, at, Instr::Return),
        Named::Call => match one_index(fields, at) {
            Some((x, behind)) => Ok((Plain::Call(x), behind)),
            None => Err(Refusal::Form),
        },
        Named::CallIndirect => indirect_at(fields, alloc, at),
        Named::Drop => alone(fields, at, Instr::Drop),
        Named::Select => alone(fields, at, Instr::Select),
        Named::Variable(op) => match one_index(fields, at) {
            Some((x, behind)) => Ok((Plain::OnVariable(op, x), behind)),
            None => Err(Refusal::Form),
        },
        Named::Access(op) => access_at(fields, op, at),
        Named::MemorySize => alone(fields, at, Instr::MemorySize),
        Named::MemoryGrow => alone(fields, at, Instr::MemoryGrow),
        Named::Fence => alone(fields, at, Instr::Fence),
        Named::I32Const => match one_immediate(fields, at) {
            Some((word, behind)) => match i32_of(word) {
                Some(value) => Ok((Plain::Alone(Simple::new(Instr::I32Const(value))), behind)),
                None => Err(Refusal::Form),
            },
            None => Err(Refusal::Form),
        },
        Named::I64Const => match one_immediate(fields, at) {
            Some((word, behind)) => match i64_of(word) {
                Some(value) => Ok((Plain::Alone(Simple::new(Instr::I64Const(value))), behind)),
                None => Err(Refusal::Form),
            },
            None => Err(Refusal::Form),
        },
        Named::Numeric(op) => alone(fields, at, Instr::Numeric(op)),
    }
}

/// The start of a block, a loop or an if: `$id? (result t)?` (6.5.1).
fn opens_at<'a>(fields: &Fields<'a>, at: Place, of: Construct) -> Result<(Step<'a>, Place), Refusal>
    ensures { ReadsFront seen_part fields.now (at_place fields.now at) result (opens of (immediates (at_place fields.now at))) }
{
    let (label, behind) = label_at(fields, at);
    let (leaves, behind) = whole_result(fields, behind)?;
    Ok((Step::Open { of, label, leaves }, behind))
}

/// `$id?`, and no immediate behind it.
fn whole_label<'a>(fields: &Fields<'a>, at: Place) -> Result<(Option<&'a [u8]>, Place), Refusal>
    ensures { ReadsFront seen_name fields.now (at_place fields.now at) result (whole (identifier_front (immediates (at_place fields.now at)))) }
{
    let (label, behind) = label_at(fields, at);
    match immediate_at(fields, behind) {
        Some(met) => match met.item {
            Item::Word(_) => Err(Refusal::Form),
            Item::Text(_) => Err(Refusal::Form),
            Item::Group(_, _) => Err(Refusal::Form),
        },
        None => Ok((label, behind)),
    }
}

/// The part that a name begins, with its immediates, and the place behind them.
pub fn part_at<'a>(
    fields: &Fields<'a>,
    alloc: Global,
    n: Named,
    at: Place,
) -> Result<(Step<'a>, Place), Refusal>
    ensures { ReadsFront seen_part fields.now (at_place fields.now at) result (part_of n (immediates (at_place fields.now at))) }
{
    match n {
        Named::Block => opens_at(fields, at, Construct::Block(BlockKind::Block)),
        Named::Loop => opens_at(fields, at, Construct::Block(BlockKind::Loop)),
        Named::If => opens_at(fields, at, Construct::If),
        Named::Else => {
            let (label, behind) = whole_label(fields, at)?;
            Ok((Step::Else { label }, behind))
        }
        Named::End => {
            let (label, behind) = whole_label(fields, at)?;
            Ok((Step::End { label }, behind))
        }
        _ => {
            let (i, behind) = plain_at(fields, alloc, n, at)?;
            Ok((Step::Plain(i), behind))
        }
    }
}
