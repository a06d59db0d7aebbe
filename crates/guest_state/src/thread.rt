// A guest thread, and what is done to it from outside the interpreter.
ghost use Rattle.std.specs.Prelude.{◌≡◌, ◌+◌, ◌-◌, ◌≤◌, ◌<◌, length, [], IfOk, OnOk, OnErr, IfErr, Ok, Err, ◌∷◌, drop, option_to_list, true, None, nat_le};
ghost use Rattle.guest_state.specs.Module.{own_function, type_of, further_locals, first_globals, result_count};
ghost use Rattle.wasm_ast.specs.TypingModule.{is_typed};
ghost use Rattle.guest_state.specs.Fits.{Accepts, Fits, IsAnsweredBy, result_of};
ghost use Rattle.guest_state.specs.Snapshot.{first_height, placed, thread_of};
ghost use Rattle.guest_state.specs.GuestThread.{in_frame, value_count};
ghost use Rattle.guest_state.specs.Steps.{started, with_frame, has_room, taken_count, operand_count, arguments_of, answered};
ghost use Rattle.std.specs.Bool.{OnTrue};
ghost use Rattle.wasm_ast.specs.declared.module.Module.{Module};

mod steps;

use super::entries::{OpenFrame, OpenLabel};
use super::functions::{
    behind_instruction, first_globals, further_locals, over_arguments, own_function, params,
    returns,
};
use super::stack::{Stack, push_all, push_option};
use int_ops::Cause;
use std::alloc::{AllocError, Global};
use std::marker::Model;
use std::mem;
use wasm_ast::{Module, Position};

/// The most frames of a thread.
const MOST_FRAMES: usize = 1024;

/// The most values of a thread, the locals of its frames among them.
pub const MOST_VALUES: usize = 65_536;

/// The most labels of a thread.
pub const MOST_LABELS: usize = 16_384;

/// A guest thread. Contracts see what it stands for in its module. All the room that it may come to need is
/// taken when it starts.
#[derive(Drop)]
pub struct Thread {
    values: Stack<u64>,
    labels: Stack<OpenLabel>,
    frames: Stack<OpenFrame>,
    globals: Vec<u64>,
    base: usize,
    main: bool,
    full: bool,
}

impl Model for Thread {
    ghost use Rattle.wasm_ast.specs.TypingModule.{is_typed};
    ghost use Rattle.guest_state.specs.Fits.{Accepts, Fits, IsAnsweredBy, result_of};
    ghost use Rattle.guest_state.specs.Snapshot.{Snapshot};
    ghost use Rattle.guest_state.specs.Sound.{IsSound};

    ghost Value = { Snapshot };

    ghost view = { λ t. record { values = t.values.items; labels = t.labels.items; frames = t.frames.items; globals = t.globals.items; main = t.main; full = t.full } };

    ghost invariant = { λ t. IsSound t.values t.labels t.frames t.base };
}

impl Thread {
    /// Whether a thread can begin the function of that index with so many arguments: with the function's other locals
    /// they are at most 65,536 values.
    pub fn can_start(module: &Module, function: u32, count: usize) -> bool
        ensures { result ≡ nat_le (count + further_locals «module».now (own_function «module».now function)) 65536 }
    {
        let zeros = further_locals(module, own_function(module, function));
        zeros <= MOST_VALUES && count <= MOST_VALUES - zeros
    }

    /// A thread that begins a function, given by its index, with these arguments. It takes room for 1,024
    /// frames, 65,536 values and 16,384 labels, so that nothing done to it later takes any. `AllocError` is want
    /// of memory and nothing else.
    pub fn start(
        alloc: Global,
        module: &Module,
        function: u32,
        arguments: &[u64],
        main: bool,
    ) -> Result<Thread, AllocError>
        requires { length arguments.now + further_locals «module».now (own_function «module».now function) ≤ 65536 }
        ensures value { IfOk result (λ t. thread_of «module».now t ≡ started «module».now (own_function «module».now function) arguments.now main) }
        ensures fits { IfOk result (λ t. is_typed «module».now ≡ true → Accepts «module».now (own_function «module».now function) arguments.now → Fits «module».now (thread_of «module».now t)) }
    {
        let function = own_function(module, function);
        let filler = Position::start(0);
        let label = OpenLabel {
            branch: filler,
            end: filler,
            height: 0,
            carries: false,
        };
        let mut values = Stack::with_room(alloc, 0, MOST_VALUES)?;
        let labels = Stack::with_room(alloc, label, MOST_LABELS)?;
        let globals = first_globals(alloc, module)?;
        push_all(&mut values, arguments, further_locals(module, function));
        let frame = OpenFrame {
            function,
            returns: returns(module, function),
            locals_start: 0,
            locals_end: values.len(),
            labels_start: 0,
            place: filler,
        };
        let mut frames = Stack::with_room(alloc, frame, MOST_FRAMES)?;
        frames.push(frame);
        Ok(Thread {
            values,
            labels,
            frames,
            globals,
            base: 0,
            main,
            full: false,
        })
    }

    /// Moves the thread out. One without any room, which has finished, stands in its place. No memory is taken, and
    /// `AllocError` doesn't come.
    pub fn take(&mut self) -> Result<Thread, AllocError>
        ensures { IfOk result (λ t. t ≡ self.old) }
    {
        let globals = mem::try_take(&mut self.globals)?;
        let alloc = *globals.allocator();
        let empty = Thread {
            values: Stack::without_room(alloc),
            labels: Stack::without_room(alloc),
            frames: Stack::without_room(alloc),
            globals: Vec::new(alloc),
            base: 0,
            main: false,
            full: false,
        };
        let taken = mem::replace(self, empty);
        Ok(Thread { globals, ..taken })
    }

    // The innermost frame.
    #[inline(always)]
    fn innermost(&self) -> OpenFrame
        requires { 0 < length self.now.frames }
        ensures { self.now.frames ≡ result ∷ drop 1 self.now.frames }
    {
        self.frames.at(self.frames.len() - 1)
    }

    // Another place of the innermost frame.
    #[inline(always)]
    fn place_innermost(&mut self, place: Position)
        requires { 0 < length self.old.frames }
        ensures { self.new ≡ record self.old { frames = placed place self.old.frames } }
    {
        let frame = self.innermost();
        self.frames
            .set(self.frames.len() - 1, OpenFrame { place, ..frame });
    }

    /// Whether it was started as a main thread, whose end ends its process. A copy has the same answer.
    pub fn main(&self) -> bool
        ensures { result ≡ self.now.main }
    {
        self.main
    }

    /// Marks that a handler's frame found no room, so that the next step traps.
    pub fn mark_full(&mut self)
        ensures value { self.new ≡ record self.old { full = true } }
        ensures fits { (m : Module) → Fits m (thread_of m self.old) → Fits m (thread_of m self.new) }
    {
        self.full = true;
    }

    // Whether there is room for a frame more and so many values more.
    #[inline(always)]
    fn has_room(&self, values: usize) -> bool
        requires { 0 < length self.now.frames }
        ensures value { (m : Module) → result ≡ has_room (thread_of m self.now) values }
        ensures values_free { OnTrue result (length self.now.values + values ≤ 65536) }
        ensures frames_free { OnTrue result (length self.now.frames < 1024) }
    {
        self.frames.len() < MOST_FRAMES && values <= MOST_VALUES - self.values.len()
    }

    /// Puts the frame of a function, given by its index, above the others of a thread that hasn't finished, with
    /// these arguments. `StackFull` comes exactly where there would be more than 1,024 frames or 65,536 values,
    /// the arguments and locals of the new frame among them; the thread is unchanged then. No memory is taken.
    pub fn push_frame(
        &mut self,
        module: &Module,
        function: u32,
        arguments: &[u64],
    ) -> Result<(), Cause>
        requires { 0 < length self.old.frames }
        ensures ok { OnOk result (with_frame «module».now (own_function «module».now function) arguments.now (thread_of «module».now self.old) ≡ Ok (thread_of «module».now self.new)) }
        ensures err { IfErr result (λ cause. with_frame «module».now (own_function «module».now function) arguments.now (thread_of «module».now self.old) ≡ Err cause) }
        ensures unchanged { OnErr result (self.new ≡ self.old) }
        ensures fits { OnOk result (is_typed «module».now ≡ true → Accepts «module».now (own_function «module».now function) arguments.now → result_of «module».now (own_function «module».now function) ≡ None → Fits «module».now (thread_of «module».now self.old) → Fits «module».now (thread_of «module».now self.new)) }
    {
        let function = own_function(module, function);
        let zeros = further_locals(module, function);
        if !self.has_room(arguments.len() + zeros) {
            return Err(Cause::StackFull);
        }
        let start = self.values.len();
        push_all(&mut self.values, arguments, zeros);
        self.frames.push(OpenFrame {
            function,
            returns: returns(module, function),
            locals_start: start,
            locals_end: self.values.len(),
            labels_start: self.labels.len(),
            place: Position::start(0),
        });
        self.base = start;
        Ok(())
    }

    // How many values stand below the operands of the innermost block.
    fn first_height(&self) -> usize
        requires { 0 < length self.now.frames }
        ensures value { result ≡ first_height self.now.frames self.now.labels }
        ensures within { result ≤ length self.now.values }
    {
        let frame = self.innermost();
        let labels = self.labels.len();
        if labels > frame.labels_start {
            self.labels.at(labels - 1).height
        } else {
            frame.locals_end
        }
    }

    /// Whether the innermost block has the operands that a call, wait or notify of `count` arguments takes where the
    /// thread stands at one: the arguments, and at a `call_indirect` the number in the table.
    pub fn has_arguments(&self, module: &Module, count: usize) -> bool
        requires { 0 < length self.now.frames }
        ensures { result ≡ nat_le (taken_count (thread_of «module».now self.now) count) (operand_count (thread_of «module».now self.now)) }
    {
        let over = over_arguments(module, self.innermost());
        let operands = self.values.len() - self.first_height();
        over <= operands && count <= operands - over
    }

    // How many values stand below the arguments of the call, wait or notify of `count` arguments at which the thread stands.
    fn below_arguments(&self, module: &Module, count: usize) -> usize
        requires some { 0 < length self.now.frames }
        requires stands { taken_count (thread_of «module».now self.now) count ≤ operand_count (thread_of «module».now self.now) }
        ensures value { result ≡ length self.now.values - taken_count (thread_of «module».now self.now) count }
        ensures within { result + count ≤ length self.now.values }
    {
        let over = over_arguments(module, self.innermost());
        self.values.len() - over - count
    }

    /// The arguments of the call, wait or notify of `count` arguments at which the thread stands, in the order of
    /// the parameters: the last operands, or at a `call_indirect` those below the number in the table.
    pub fn arguments(&self, module: &Module, count: usize) -> &[u64]
        requires some { 0 < length self.now.frames }
        requires stands { taken_count (thread_of «module».now self.now) count ≤ operand_count (thread_of «module».now self.now) }
        ensures { result.now ≡ arguments_of (thread_of «module».now self.now) count }
    {
        let low = self.below_arguments(module, count);
        self.values.range(low, count)
    }

    /// Answers the call, wait or notify of `count` arguments at which the thread stands: the value, if any, takes
    /// the place of the arguments and, at a `call_indirect`, of the number in the table, and the thread stands
    /// behind it. No memory is taken.
    pub fn answer(&mut self, module: &Module, count: usize, value: Option<u64>)
        requires some { 0 < length self.old.frames }
        requires stands { taken_count (thread_of «module».now self.old) count ≤ operand_count (thread_of «module».now self.old) }
        requires room { value_count (thread_of «module».now self.old) + length (option_to_list value) ≤ 65536 + taken_count (thread_of «module».now self.old) count }
        ensures value { thread_of «module».now self.new ≡ in_frame (answered count value) (thread_of «module».now self.old) }
        ensures fits { IsAnsweredBy «module».now (thread_of «module».now self.old) count value → Fits «module».now (thread_of «module».now self.old) → Fits «module».now (thread_of «module».now self.new) }
    {
        let place = behind_instruction(module, self.innermost());
        let low = self.below_arguments(module, count);
        self.values.keep(low);
        push_option(&mut self.values, value);
        self.place_innermost(place);
    }

    /// An equal thread, with all its room. `AllocError` is want of memory and nothing else.
    pub fn copy(&self, alloc: Global) -> Result<Thread, AllocError>
        ensures { IfOk result (λ t. t ≡ self.now) }
    {
        Ok(Thread {
            values: self.values.copy(alloc)?,
            labels: self.labels.copy(alloc)?,
            frames: self.frames.copy(alloc)?,
            globals: Vec::from_slice(alloc, self.globals.as_slice())?,
            base: self.base,
            main: self.main,
            full: self.full,
        })
    }
}
