// The instructions of a function, plain and folded, read without recursion: WebAssembly Core 1.0, section 6.5.
ghost use Rattle.std.specs.Prelude.{◌≡◌, ◌∷◌, false, true, codes, List, ℕ, Some};
ghost use Rattle.std.specs.Str.{bytes_eq};
ghost use Rattle.wat_tokens.specs.Tokens.{Token};
ghost use Rattle.wat_fields.specs.Items.{Items, Word, Group};
ghost use Rattle.wat_names.specs.declared.named.Named.{Named};
ghost use Rattle.wat_bodies.specs.declared.nesting.Stands.TheVariants as stands;
ghost use Rattle.wat_syntax.specs.Flat.{FlatStep, seen_steps};
ghost use Rattle.wat_bodies.specs.Bodies.{ReadsBody};
ghost use Rattle.wat_immediates.specs.InstructionForms.{is_immediate, part_of};
ghost use Rattle.wat_immediates.specs.Rows.{immediates, past, seen_part};
ghost use Rattle.wat_bodies.specs.Nesting.{IsNested, is_else, Begins, BeginsElse, seen_frame, seen_frames, stands_in, Turns};
ghost use Rattle.wat_syntax.specs.Seen.{at_place};

use super::nesting::{Frame, Stands, end_group, put_part, stands_in};
use std::alloc::Global;
use wasm_ast::Construct;
use wat_fields::{Fields, Item, Place};
use wat_immediates::{is_immediate, part_at};
use wat_names::{Named, instruction_named};
use wat_syntax::{Refusal, Step, is_end};

/// A word, by the place behind it: an instruction with its immediates.
fn word_turn<'a>(
    fields: &Fields<'a>,
    alloc: Global,
    word: &[u8],
    at: Place,
    frames: &mut Vec<Frame<'a>>,
    steps: &mut Vec<Step<'a>>,
) -> Result<Option<Place>, Refusal>
    requires { IsNested (seen_frames fields.now frames.old.items) }
    ensures { Turns fields.now (seen_steps steps.old.items) (seen_steps steps.new.items) (seen_frames fields.now frames.old.items) (seen_frames fields.now frames.new.items) (Word word.now (at_place fields.now at)) result }
{
    match instruction_named(word) {
        Some(n) => match part_at(fields, alloc, n, at) {
            Ok((part, behind)) => match put_part(frames, steps, part) {
                Ok(()) => Ok(Some(behind)),
                Err(why) => Err(why),
            },
            Err(why) => Err(why),
        },
        None => Err(Refusal::Form),
    }
}

/// Whether a name is that of an `else`.
fn is_else(n: Named) -> bool
    ensures { result ≡ is_else n }
{
    matches!(n, Named::Else)
}

/// The first arm of a folded if, by what it stands in, the place inside it and that behind it.
fn first_arm<'a>(
    frame: Frame<'a>,
    inside: Place,
    rest: Place,
    frames: &mut Vec<Frame<'a>>,
    steps: &mut Vec<Step<'a>>,
) -> Result<Option<Place>, Refusal>
    ensures { (tokens : List Token) (line : ℕ) (keyword : List ℕ) → is_immediate keyword ≡ false → bytes_eq keyword (codes "then") ≡ true → IsNested (seen_frame tokens frame.entry ∷ seen_frames tokens frames.old.items) → Turns tokens (seen_steps steps.old.items) (seen_steps steps.new.items) (seen_frame tokens frame.entry ∷ seen_frames tokens frames.old.items) (seen_frames tokens frames.new.items) (Group line (Word keyword (at_place tokens inside)) (at_place tokens rest)) result }
{
    match frame {
        Frame::Block => Err(Refusal::Form),
        Frame::If => Err(Refusal::Form),
        Frame::Body(_) => Err(Refusal::Form),
        Frame::Operands(_, _) => Err(Refusal::Form),
        Frame::Tests(label, leaves, behind) => {
            frames.push(Frame::First(rest, behind))?;
            steps.push(Step::Open {
                of: Construct::If,
                label,
                leaves,
            })?;
            Ok(Some(inside))
        }
        Frame::First(_, _) => Err(Refusal::Form),
        Frame::Second(_) => Err(Refusal::Form),
    }
}

/// The second arm of a folded if, by what it stands in, the place inside it and that behind it.
fn second_arm<'a>(
    fields: &Fields<'a>,
    frame: Frame<'a>,
    inside: Place,
    rest: Place,
    frames: &mut Vec<Frame<'a>>,
) -> Result<Option<Place>, Refusal>
    ensures { (steps : List FlatStep) (line : ℕ) (keyword : List ℕ) (n : Named) → BeginsElse keyword n → IsNested (seen_frame fields.now frame.entry ∷ seen_frames fields.now frames.old.items) → Turns fields.now steps steps (seen_frame fields.now frame.entry ∷ seen_frames fields.now frames.old.items) (seen_frames fields.now frames.new.items) (Group line (Word keyword (at_place fields.now inside)) (at_place fields.now rest)) result }
{
    match frame {
        Frame::Block => Err(Refusal::Form),
        Frame::If => Err(Refusal::Form),
        Frame::Body(_) => Err(Refusal::Form),
        Frame::Operands(_, _) => Err(Refusal::Form),
        Frame::Tests(_, _, _) => Err(Refusal::Form),
        Frame::First(_, _) => Err(Refusal::Form),
        Frame::Second(behind) => {
            if is_end(fields, rest) {
                frames.push(Frame::Body(behind))?;
                Ok(Some(inside))
            } else {
                Err(Refusal::Form)
            }
        }
    }
}

/// A folded instruction by its part, the place behind its immediates and that behind its group.
fn fold_part<'a>(
    part: Step<'a>,
    at: Place,
    rest: Place,
    frames: &mut Vec<Frame<'a>>,
    steps: &mut Vec<Step<'a>>,
) -> Result<Option<Place>, Refusal>
    ensures { (tokens : List Token) (line : ℕ) (keyword : List ℕ) (inside : Items) (n : Named) → Begins keyword n → part_of n (immediates inside) ≡ Some (seen_part part.entry) → at_place tokens at ≡ past inside → IsNested (seen_frames tokens frames.old.items) → (stands_in (seen_frames tokens frames.old.items) ≡ stands.Second → ⊥) → Turns tokens (seen_steps steps.old.items) (seen_steps steps.new.items) (seen_frames tokens frames.old.items) (seen_frames tokens frames.new.items) (Group line (Word keyword inside) (at_place tokens rest)) result }
{
    match part {
        Step::Plain(i) => {
            frames.push(Frame::Operands(i, rest))?;
            Ok(Some(at))
        }
        Step::Open { of, label, leaves } => match of {
            Construct::Block(_) => {
                frames.push(Frame::Body(rest))?;
                steps.push(Step::Open { of, label, leaves })?;
                Ok(Some(at))
            }
            Construct::If => {
                frames.push(Frame::Tests(label, leaves, rest))?;
                Ok(Some(at))
            }
        },
        Step::Else { .. } => Err(Refusal::Form),
        Step::End { .. } => Err(Refusal::Form),
    }
}

/// A folded instruction by its name, the place behind that and the place behind its group.
fn fold<'a>(
    fields: &Fields<'a>,
    alloc: Global,
    n: Named,
    inside: Place,
    rest: Place,
    frames: &mut Vec<Frame<'a>>,
    steps: &mut Vec<Step<'a>>,
) -> Result<Option<Place>, Refusal>
    requires { IsNested (seen_frames fields.now frames.old.items) }
    ensures { (line : ℕ) (keyword : List ℕ) → Begins keyword n → Turns fields.now (seen_steps steps.old.items) (seen_steps steps.new.items) (seen_frames fields.now frames.old.items) (seen_frames fields.now frames.new.items) (Group line (Word keyword (at_place fields.now inside)) (at_place fields.now rest)) result }
{
    match stands_in(frames.as_slice()) {
        Stands::Second => Err(Refusal::Form),
        _ => match part_at(fields, alloc, n, inside) {
            Ok((part, at)) => fold_part(part, at, rest, frames, steps),
            Err(why) => Err(why),
        },
    }
}

/// The first arm of a folded if, by the place inside it and that behind it.
fn first_arm_turn<'a>(
    inside: Place,
    rest: Place,
    frames: &mut Vec<Frame<'a>>,
    steps: &mut Vec<Step<'a>>,
) -> Result<Option<Place>, Refusal>
    ensures { (tokens : List Token) (line : ℕ) (keyword : List ℕ) → is_immediate keyword ≡ false → bytes_eq keyword (codes "then") ≡ true → IsNested (seen_frames tokens frames.old.items) → Turns tokens (seen_steps steps.old.items) (seen_steps steps.new.items) (seen_frames tokens frames.old.items) (seen_frames tokens frames.new.items) (Group line (Word keyword (at_place tokens inside)) (at_place tokens rest)) result }
{
    match frames.pop() {
        Some(frame) => first_arm(frame, inside, rest, frames, steps),
        None => Err(Refusal::Form),
    }
}

/// The second arm of a folded if, by the place inside it and that behind it.
fn second_arm_turn<'a>(
    fields: &Fields<'a>,
    inside: Place,
    rest: Place,
    frames: &mut Vec<Frame<'a>>,
) -> Result<Option<Place>, Refusal>
    requires { IsNested (seen_frames fields.now frames.old.items) }
    ensures { (steps : List FlatStep) (line : ℕ) (keyword : List ℕ) (n : Named) → BeginsElse keyword n → Turns fields.now steps steps (seen_frames fields.now frames.old.items) (seen_frames fields.now frames.new.items) (Group line (Word keyword (at_place fields.now inside)) (at_place fields.now rest)) result }
{
    match frames.pop() {
        Some(frame) => second_arm(fields, frame, inside, rest, frames),
        None => Err(Refusal::Form),
    }
}

/// A group, by its keyword, the place behind that and the place behind the group.
fn group_turn<'a>(
    fields: &Fields<'a>,
    alloc: Global,
    keyword: &[u8],
    inside: Place,
    rest: Place,
    frames: &mut Vec<Frame<'a>>,
    steps: &mut Vec<Step<'a>>,
) -> Result<Option<Place>, Refusal>
    requires { IsNested (seen_frames fields.now frames.old.items) }
    ensures { (line : ℕ) → Turns fields.now (seen_steps steps.old.items) (seen_steps steps.new.items) (seen_frames fields.now frames.old.items) (seen_frames fields.now frames.new.items) (Group line (Word keyword.now (at_place fields.now inside)) (at_place fields.now rest)) result }
{
    if is_immediate(keyword) {
        return Err(Refusal::Form);
    }
    if keyword == b"then".as_slice() {
        return first_arm_turn(inside, rest, frames, steps);
    }
    match instruction_named(keyword) {
        Some(n) => {
            if is_else(n) {
                second_arm_turn(fields, inside, rest, frames)
            } else {
                fold(fields, alloc, n, inside, rest, frames, steps)
            }
        }
        None => Err(Refusal::Form),
    }
}

/// What stands at a place: a word, a group, or the end of what is open innermost.
fn turn<'a>(
    fields: &Fields<'a>,
    alloc: Global,
    at: Place,
    frames: &mut Vec<Frame<'a>>,
    steps: &mut Vec<Step<'a>>,
) -> Result<Option<Place>, Refusal>
    requires { IsNested (seen_frames fields.now frames.old.items) }
    ensures { Turns fields.now (seen_steps steps.old.items) (seen_steps steps.new.items) (seen_frames fields.now frames.old.items) (seen_frames fields.now frames.new.items) (at_place fields.now at) result }
{
    match fields.item(at) {
        Some(met) => match met.item {
            Item::Word(word) => word_turn(fields, alloc, word, met.behind, frames, steps),
            Item::Text(_) => Err(Refusal::Form),
            Item::Group(_, start) => match fields.item(start) {
                Some(head) => match head.item {
                    Item::Word(keyword) => group_turn(
                        fields,
                        alloc,
                        keyword,
                        head.behind,
                        met.behind,
                        frames,
                        steps,
                    ),
                    Item::Text(_) => Err(Refusal::Form),
                    Item::Group(_, _) => Err(Refusal::Form),
                },
                None => Err(Refusal::Form),
            },
        },
        None => end_group(frames, steps),
    }
}

/// The instructions of a function, and nothing more (6.5).
pub fn body_at<'a>(fields: &Fields<'a>, alloc: Global, at: Place) -> Result<Vec<Step<'a>>, Refusal>
    ensures { ReadsBody (λ steps. seen_steps steps.items) (at_place fields.now at) result }
{
    let mut frames = Vec::new(alloc);
    let mut steps = Vec::new(alloc);
    let mut at = at;
    loop {
        match turn(fields, alloc, at, &mut frames, &mut steps) {
            Ok(Some(next)) => at = next,
            Ok(None) => return Ok(steps),
            Err(why) => return Err(why),
        }
    }
}
