// What the interpreter does to a thread in one step. Between two calls it keeps the place of the innermost frame itself.
ghost use Rattle.std.specs.Prelude.{◌≡◌, ◌+◌, ◌-◌, ◌≤◌, ◌<◌, length, [], ◌∷◌, Some, Ok, Err, IfErr, OnOk, OnErr, IsOkUnless, is_err, nat_le, slice_get, slice_set, if◌then◌else◌};
ghost use Rattle.std.specs.Bool.{OnTrue, OnFalse};
ghost use Rattle.int_ops.specs.declared.trap.Cause.TheVariants.{StackFull};
ghost use Rattle.wasm_ast.specs.declared.module.Module.{Module};
ghost use Rattle.wasm_ast.specs.declared.position.Position.{Position};
ghost use Rattle.guest_state.specs.GuestThread.{in_frame, label_count, value_count};
ghost use Rattle.guest_state.specs.Module.{further_locals, param_count, type_of};
ghost use Rattle.guest_state.specs.Snapshot.{branch_arity, first_function, innermost_body, locals_of, open_count, operands_of, result_arity, thread_at, thread_of};
ghost use Rattle.wasm_ast.specs.Position.{remaining};
ghost use Rattle.wasm_ast.specs.Sequence.{Empty};
ghost use Rattle.guest_state.specs.Steps.{branched, called, closed, has_room, left, opened, returned, with_local, with_operands};

use super::{
    MOST_FRAMES, MOST_VALUES, OpenFrame, OpenLabel, Thread, further_locals, params, push_all,
    returns,
};
use int_ops::Cause;
use wasm_ast::{Module, Position};

impl Thread {
    /// The last operand but so many, of the innermost block.
    #[inline(always)]
    pub fn operand(&self, over: usize) -> u64
        requires { over < length (operands_of self.now) }
        ensures { slice_get (operands_of self.now) over ≡ Some result }
    {
        self.values.at(self.values.len() - 1 - over)
    }

    /// Puts an operand on top. `StackFull` comes exactly where there are 65,536 values; the thread is
    /// unchanged then.
    #[inline(always)]
    pub fn push(&mut self, value: u64) -> Result<(), Cause>
        requires { 0 < length self.old.frames }
        ensures ok { OnOk result ((m : Module) (place : Position) → thread_at m place self.new ≡ in_frame (with_operands 0 (value ∷ [])) (thread_at m place self.old)) }
        ensures full { (m : Module) (place : Position) → is_err result ≡ nat_le 65536 (value_count (thread_at m place self.old)) }
        ensures only { IsOkUnless result StackFull }
        ensures unchanged { OnErr result (self.new ≡ self.old) }
        ensures frames { length self.new.frames ≡ length self.old.frames }
    {
        if self.values.is_full() {
            return Err(Cause::StackFull);
        }
        self.values.push(value);
        Ok(())
    }

    /// Drops so many operands of the innermost block.
    #[inline(always)]
    pub fn drop_operands(&mut self, count: usize)
        requires some { 0 < length self.old.frames }
        requires enough { count ≤ length (operands_of self.old) }
        ensures value { (m : Module) (place : Position) → thread_at m place self.new ≡ in_frame (with_operands count []) (thread_at m place self.old) }
        ensures frames { length self.new.frames ≡ length self.old.frames }
    {
        self.values.keep(self.values.len() - count);
    }

    /// Puts an operand in the place of so many, one at least, of the innermost block.
    #[inline(always)]
    pub fn replace_operands(&mut self, count: usize, value: u64)
        requires some { 0 < count }
        requires enough { count ≤ length (operands_of self.old) }
        ensures value { (m : Module) (place : Position) → thread_at m place self.new ≡ in_frame (with_operands count (value ∷ [])) (thread_at m place self.old) }
        ensures frames { length self.new.frames ≡ length self.old.frames }
    {
        self.values.keep(self.values.len() - count);
        self.values.push(value);
    }

    /// The place of the innermost frame, while the thread is at rest.
    #[inline(always)]
    pub fn place(&self) -> Position
        requires { 0 < length self.now.frames }
        ensures { (m : Module) → thread_at m result self.now ≡ thread_of m self.now }
    {
        self.innermost().place
    }

    /// Lets the innermost frame rest at a place.
    #[inline(always)]
    pub fn rest_at(&mut self, place: Position)
        requires { 0 < length self.old.frames }
        ensures value { (m : Module) → thread_of m self.new ≡ thread_at m place self.old }
        ensures frames { length self.new.frames ≡ length self.old.frames }
    {
        self.place_innermost(place);
    }

    /// How many blocks are open in the innermost function.
    #[inline(always)]
    pub fn open_blocks(&self) -> usize
        requires { 0 < length self.now.frames }
        ensures { result ≡ open_count self.now }
    {
        let start = self.innermost().labels_start;
        let labels = self.labels.len();
        if labels > start { labels - start } else { 0 }
    }

    /// Enters a block, a loop or an if: a branch to it goes on at one place, another place stands behind it, and
    /// a branch takes a value along or none. The instructions inside begin where the caller goes on. `StackFull`
    /// comes exactly where 16,384 labels are open; the thread is unchanged then.
    #[inline(always)]
    pub fn open(&mut self, branch: Position, end: Position, carries: bool) -> Result<(), Cause>
        requires { 0 < length self.old.frames }
        ensures ok { OnOk result ((m : Module) (place inner : Position) → thread_at m inner self.new ≡ in_frame (opened (if carries then 1 else 0) (remaining (innermost_body m self.old) branch) (remaining (innermost_body m self.old) end) (remaining (innermost_body m self.old) inner)) (thread_at m place self.old)) }
        ensures full { (m : Module) (place : Position) → is_err result ≡ nat_le 16384 (label_count (thread_at m place self.old)) }
        ensures only { IsOkUnless result StackFull }
        ensures unchanged { OnErr result (self.new ≡ self.old) }
        ensures frames { length self.new.frames ≡ length self.old.frames }
    {
        if self.labels.is_full() {
            return Err(Cause::StackFull);
        }
        let height = self.values.len();
        self.labels.push(OpenLabel {
            branch,
            end,
            height,
            carries,
        });
        Ok(())
    }

    /// Ends the innermost block, of which the innermost function has one at least, and gives the place behind it.
    #[inline(always)]
    pub fn close(&mut self) -> Position
        requires some { 0 < length self.old.frames }
        requires inside { 0 < open_count self.old }
        ensures value { (m : Module) (place : Position) → thread_at m result self.new ≡ in_frame closed (thread_at m place self.old) }
        ensures frames { length self.new.frames ≡ length self.old.frames }
    {
        let last = self.labels.len() - 1;
        let label = self.labels.at(last);
        self.labels.keep(last);
        label.end
    }

    /// Branches to a label of the innermost function, counted from the innermost from 0 on, and gives the place
    /// where the branch goes on. Of the operands inside, only the value that it takes along stays, if any (4.4.6).
    #[inline(always)]
    pub fn branch(&mut self, depth: usize) -> Position
        requires some { 0 < length self.old.frames }
        requires inside { depth < open_count self.old }
        requires enough { branch_arity depth self.old ≤ length (operands_of self.old) }
        ensures value { (m : Module) (place : Position) → thread_at m result self.new ≡ in_frame (branched depth) (thread_at m place self.old) }
        ensures frames { length self.new.frames ≡ length self.old.frames }
    {
        let last = self.labels.len() - 1 - depth;
        let label = self.labels.at(last);
        self.labels.keep(last);
        self.values.keep_with(label.height, label.carries);
        label.branch
    }

    /// Branches out of all blocks of the innermost function: its result stays, if it gives one back, and it goes on
    /// at a place where no instruction is left (4.4.6).
    #[inline(always)]
    pub fn leave(&mut self)
        requires some { 0 < length self.old.frames }
        requires enough { result_arity self.old ≤ length (operands_of self.old) }
        ensures value { (m : Module) (place end : Position) → remaining (innermost_body m self.old) end ≡ Empty → thread_at m end self.new ≡ in_frame left (thread_at m place self.old) }
        ensures frames { length self.new.frames ≡ length self.old.frames }
    {
        let frame = self.innermost();
        self.labels.keep(frame.labels_start);
        self.values.keep_with(frame.locals_end, frame.returns);
    }

    /// Calls the module's own function of that number: the last operands become its first locals where they stand,
    /// and the caller rests behind the call (4.4.7). `StackFull` comes exactly where there would be more than 1,024
    /// frames or 65,536 values, the locals of the new frame among them; the thread is unchanged then. No memory is
    /// taken.
    #[inline(always)]
    pub fn call(&mut self, module: &Module, function: u32, behind: Position) -> Result<(), Cause>
        requires some { 0 < length self.old.frames }
        requires enough { param_count (type_of «module».now function) ≤ length (operands_of self.old) }
        ensures ok { OnOk result (called «module».now function (thread_at «module».now behind self.old) ≡ Ok (thread_at «module».now (record { list = 0; index = 0 }) self.new)) }
        ensures err { IfErr result (λ cause. called «module».now function (thread_at «module».now behind self.old) ≡ Err cause) }
        ensures unchanged { OnErr result (self.new ≡ self.old) }
        ensures frames { OnOk result (length self.new.frames ≡ length self.old.frames + 1) }
    {
        let zeros = further_locals(module, function);
        if !self.has_room(zeros) {
            return Err(Cause::StackFull);
        }
        self.place_innermost(behind);
        let start = self.values.len() - params(module, function);
        push_all(&mut self.values, &[], zeros);
        self.frames.push(OpenFrame {
            function,
            returns: returns(module, function),
            locals_start: start,
            locals_end: self.values.len(),
            labels_start: self.labels.len(),
            place: Position::start(0),
        });
        self.base = start;
        Ok(())
    }

    /// Returns from the innermost function: its result, if it gives one back, stands above the operands of the frame
    /// below, which is at its own place (4.4.7). Where there is no frame below, the thread has finished.
    #[inline(always)]
    pub fn return_(&mut self)
        requires some { 0 < length self.old.frames }
        requires enough { result_arity self.old ≤ length (operands_of self.old) }
        ensures value { (m : Module) (place : Position) → thread_of m self.new ≡ returned (thread_at m place self.old) }
        ensures frames { length self.new.frames + 1 ≡ length self.old.frames }
    {
        let frame = self.innermost();
        let below = self.frames.len() - 1;
        self.frames.keep(below);
        self.labels.keep(frame.labels_start);
        if below == 0 {
            self.values.keep(0);
            self.base = 0;
        } else {
            self.values.keep_with(frame.locals_start, frame.returns);
            self.base = self.frames.at(below - 1).locals_start;
        }
    }

    /// Whether its last frame has returned.
    #[inline(always)]
    pub fn is_finished(&self) -> bool
        ensures finished { OnTrue result (self.now.frames ≡ []) }
        ensures runs { OnFalse result (0 < length self.now.frames) }
    {
        self.frames.len() == 0
    }

    /// Whether a handler's frame found no room, so that the next step traps.
    #[inline(always)]
    pub fn is_full(&self) -> bool
        ensures { result ≡ self.now.full }
    {
        self.full
    }

    /// The number of the innermost function among the module's own.
    #[inline(always)]
    pub fn function(&self) -> u32
        requires { 0 < length self.now.frames }
        ensures { result ≡ first_function self.now.frames }
    {
        self.innermost().function
    }

    /// How many values there are, the locals of all frames among them: at most 65,536.
    #[inline(always)]
    pub fn value_count(&self) -> usize
        ensures value { (m : Module) (place : Position) → result ≡ value_count (thread_at m place self.now) }
        ensures rest { (m : Module) → result ≡ value_count (thread_of m self.now) }
        ensures within { result ≤ 65536 }
    {
        self.values.len()
    }

    /// How many labels are open in all frames: at most 16,384.
    #[inline(always)]
    pub fn label_count(&self) -> usize
        ensures value { (m : Module) (place : Position) → result ≡ label_count (thread_at m place self.now) }
        ensures within { result ≤ 16384 }
    {
        self.labels.len()
    }

    /// Whether a call of the module's own function of that number would find room, once so many operands that stand over
    /// its arguments are gone.
    #[inline(always)]
    pub fn call_fits(&self, module: &Module, function: u32, over: usize) -> bool
        requires some { 0 < length self.now.frames }
        requires over { over ≤ length (operands_of self.now) }
        ensures { (place : Position) → result ≡ has_room (in_frame (with_operands over []) (thread_at «module».now place self.now)) (further_locals «module».now function) }
    {
        let zeros = further_locals(module, function);
        let values = self.values.len() - over;
        self.frames.len() < MOST_FRAMES && zeros <= MOST_VALUES - values
    }

    /// The local of that index, of the innermost function.
    #[inline(always)]
    pub fn local(&self, index: usize) -> u64
        requires { index < length (locals_of self.now) }
        ensures { slice_get (locals_of self.now) index ≡ Some result }
    {
        self.values.at(self.values.sum(self.base, index))
    }

    /// Sets the local of that index, of the innermost function.
    #[inline(always)]
    pub fn set_local(&mut self, index: usize, value: u64)
        requires { index < length (locals_of self.old) }
        ensures value { (m : Module) (place : Position) → thread_at m place self.new ≡ in_frame (with_local index value) (thread_at m place self.old) }
        ensures frames { length self.new.frames ≡ length self.old.frames }
    {
        let height = self.values.sum(self.base, index);
        self.values.set(height, value);
    }

    /// The value of the global of that index.
    #[inline(always)]
    pub fn global(&self, index: usize) -> u64
        requires { index < length self.now.globals }
        ensures { slice_get self.now.globals index ≡ Some result }
    {
        self.globals[index]
    }

    /// Sets the global of that index.
    #[inline(always)]
    pub fn set_global(&mut self, index: usize, value: u64)
        requires { index < length self.old.globals }
        ensures value { self.new ≡ record self.old { globals = slice_set self.old.globals index value } }
    {
        self.globals[index] = value;
    }
}
