// What is open round instructions: WebAssembly Core 1.0, sections 6.5.1 and 6.5.9.
ghost use Rattle.std.specs.Prelude.{◌≡◌, ◌∷◌, List};
ghost use Rattle.wat_tokens.specs.Tokens.{Token};
ghost use Rattle.wat_syntax.specs.Flat.{seen_plain, seen_steps};
ghost use Rattle.wat_immediates.specs.InstructionForms.{One, Opens, Elses, Ends};
ghost use Rattle.wat_immediates.specs.Rows.{seen_part};
ghost use Rattle.wat_bodies.specs.Nesting.{stands_in, is_row, opened, outer, IsNested, seen_frame, seen_frames, PutsPart, Turns};
ghost use Rattle.wat_fields.specs.Items.{Empty};
ghost use Rattle.wat_syntax.specs.Seen.{seen_name};

use wasm_ast::{Construct, ValType};
use wat_fields::Place;
use wat_syntax::{Plain, Refusal, Step};

/// What is open at a place. A group comes with the place behind it.
#[derive(Drop)]
pub(crate) enum Frame<'a> {
    /// A block or a loop, or the second arm of an if.
    Block,
    /// The first arm of an if.
    If,
    /// A folded block or loop, or the second arm of a folded if.
    Body(Place),
    /// The operands of a folded instruction, which comes behind them.
    Operands(Plain<'a>, Place),
    /// The operands of a folded if, with its label and the type of its result.
    Tests(Option<&'a [u8]>, Option<ValType>, Place),
    /// The first arm of a folded if, with the place behind it in the if.
    First(Place, Place),
    /// What comes behind the first arm of a folded if.
    Second(Place),
}

/// What may stand in what is open.
#[derive(Clone, Copy)]
pub(crate) enum Stands {
    /// Instructions with their blocks, none of which is open.
    Row,
    /// The same in a block, a loop or the second arm of an if.
    Block,
    /// The same in the first arm of an if.
    If,
    /// Folded instructions alone.
    Operands,
    /// The same, and the first arm of a folded if behind them.
    Tests,
    /// The second arm of a folded if, or nothing.
    Second,
}

/// What may stand in what is open.
pub(crate) fn stands_in(frames: &[Frame<'_>]) -> Stands
    ensures { (tokens : List Token) → result ≡ stands_in (seen_frames tokens frames.now) }
{
    match frames.last() {
        Some(Frame::Block) => Stands::Block,
        Some(Frame::If) => Stands::If,
        Some(Frame::Body(_)) => Stands::Row,
        Some(Frame::Operands(_, _)) => Stands::Operands,
        Some(Frame::Tests(_, _, _)) => Stands::Tests,
        Some(Frame::First(_, _)) => Stands::Row,
        Some(Frame::Second(_)) => Stands::Second,
        None => Stands::Row,
    }
}

/// Whether instructions with their blocks stand there.
fn is_row(stands: Stands) -> bool
    ensures { result ≡ is_row stands }
{
    match stands {
        Stands::Row => true,
        Stands::Block => true,
        Stands::If => true,
        Stands::Operands => false,
        Stands::Tests => false,
        Stands::Second => false,
    }
}

/// What the start of a block, a loop or an if opens.
fn opened<'a>(of: Construct) -> Frame<'a>
    ensures { (tokens : List Token) → seen_frame tokens result ≡ opened of }
{
    match of {
        Construct::Block(_) => Frame::Block,
        Construct::If => Frame::If,
    }
}

/// Closes the innermost.
fn close(frames: &mut Vec<Frame<'_>>)
    ensures { (tokens : List Token) → seen_frames tokens frames.new.items ≡ outer (seen_frames tokens frames.old.items) }
{
    let _ = frames.pop();
}

/// A plain instruction behind steps.
fn put_plain<'a>(
    frames: &Vec<Frame<'a>>,
    steps: &mut Vec<Step<'a>>,
    i: Plain<'a>,
) -> Result<(), Refusal>
    ensures { (tokens : List Token) → IsNested (seen_frames tokens frames.now.items) → PutsPart (seen_steps steps.old.items) (seen_steps steps.new.items) (seen_frames tokens frames.now.items) (seen_frames tokens frames.now.items) (One (seen_plain i.entry)) result }
{
    if is_row(stands_in(frames.as_slice())) {
        steps.push(Step::Plain(i))?;
        Ok(())
    } else {
        Err(Refusal::Form)
    }
}

/// The start of a block, a loop or an if behind steps.
fn put_open<'a>(
    frames: &mut Vec<Frame<'a>>,
    steps: &mut Vec<Step<'a>>,
    of: Construct,
    label: Option<&'a [u8]>,
    leaves: Option<ValType>,
) -> Result<(), Refusal>
    ensures { (tokens : List Token) → IsNested (seen_frames tokens frames.old.items) → PutsPart (seen_steps steps.old.items) (seen_steps steps.new.items) (seen_frames tokens frames.old.items) (seen_frames tokens frames.new.items) (Opens of (seen_name label.entry) leaves) result }
{
    if is_row(stands_in(frames.as_slice())) {
        frames.push(opened(of))?;
        steps.push(Step::Open { of, label, leaves })?;
        Ok(())
    } else {
        Err(Refusal::Form)
    }
}

/// The middle of an if behind steps.
fn put_else<'a>(
    frames: &mut Vec<Frame<'a>>,
    steps: &mut Vec<Step<'a>>,
    label: Option<&'a [u8]>,
) -> Result<(), Refusal>
    ensures { (tokens : List Token) → IsNested (seen_frames tokens frames.old.items) → PutsPart (seen_steps steps.old.items) (seen_steps steps.new.items) (seen_frames tokens frames.old.items) (seen_frames tokens frames.new.items) (Elses (seen_name label.entry)) result }
{
    match stands_in(frames.as_slice()) {
        Stands::If => {
            close(frames);
            frames.push(Frame::Block)?;
            steps.push(Step::Else { label })?;
            Ok(())
        }
        _ => Err(Refusal::Form),
    }
}

/// The end of a block, a loop or an if behind steps.
fn put_end<'a>(
    frames: &mut Vec<Frame<'a>>,
    steps: &mut Vec<Step<'a>>,
    label: Option<&'a [u8]>,
) -> Result<(), Refusal>
    ensures { (tokens : List Token) → IsNested (seen_frames tokens frames.old.items) → PutsPart (seen_steps steps.old.items) (seen_steps steps.new.items) (seen_frames tokens frames.old.items) (seen_frames tokens frames.new.items) (Ends (seen_name label.entry)) result }
{
    match stands_in(frames.as_slice()) {
        Stands::Block => {
            close(frames);
            steps.push(Step::End { label })?;
            Ok(())
        }
        Stands::If => {
            close(frames);
            steps.push(Step::Else { label: None })?;
            steps.push(Step::End { label })?;
            Ok(())
        }
        _ => Err(Refusal::Form),
    }
}

/// A part behind steps.
pub(crate) fn put_part<'a>(
    frames: &mut Vec<Frame<'a>>,
    steps: &mut Vec<Step<'a>>,
    part: Step<'a>,
) -> Result<(), Refusal>
    ensures { (tokens : List Token) → IsNested (seen_frames tokens frames.old.items) → PutsPart (seen_steps steps.old.items) (seen_steps steps.new.items) (seen_frames tokens frames.old.items) (seen_frames tokens frames.new.items) (seen_part part.entry) result }
{
    match part {
        Step::Plain(i) => put_plain(frames, steps, i),
        Step::Open { of, label, leaves } => put_open(frames, steps, of, label, leaves),
        Step::Else { label } => put_else(frames, steps, label),
        Step::End { label } => put_end(frames, steps, label),
    }
}

/// The end of a group that is no function's body, by what was open in it.
fn end_frame<'a>(
    frame: Frame<'a>,
    frames: &mut Vec<Frame<'a>>,
    steps: &mut Vec<Step<'a>>,
) -> Result<Option<Place>, Refusal>
    ensures { (tokens : List Token) → IsNested (seen_frame tokens frame.entry ∷ seen_frames tokens frames.old.items) → Turns tokens (seen_steps steps.old.items) (seen_steps steps.new.items) (seen_frame tokens frame.entry ∷ seen_frames tokens frames.old.items) (seen_frames tokens frames.new.items) Empty result }
{
    match frame {
        Frame::Block => Err(Refusal::Form),
        Frame::If => Err(Refusal::Form),
        Frame::Body(behind) => {
            steps.push(Step::End { label: None })?;
            Ok(Some(behind))
        }
        Frame::Operands(i, behind) => {
            steps.push(Step::Plain(i))?;
            Ok(Some(behind))
        }
        Frame::Tests(_, _, _) => Err(Refusal::Form),
        Frame::First(others, behind) => {
            frames.push(Frame::Second(behind))?;
            steps.push(Step::Else { label: None })?;
            Ok(Some(others))
        }
        Frame::Second(behind) => {
            steps.push(Step::End { label: None })?;
            Ok(Some(behind))
        }
    }
}

/// The end of a group or of all items.
pub(crate) fn end_group<'a>(
    frames: &mut Vec<Frame<'a>>,
    steps: &mut Vec<Step<'a>>,
) -> Result<Option<Place>, Refusal>
    ensures { (tokens : List Token) → IsNested (seen_frames tokens frames.old.items) → Turns tokens (seen_steps steps.old.items) (seen_steps steps.new.items) (seen_frames tokens frames.old.items) (seen_frames tokens frames.new.items) Empty result }
{
    match frames.pop() {
        Some(frame) => end_frame(frame, frames, steps),
        None => Ok(None),
    }
}
