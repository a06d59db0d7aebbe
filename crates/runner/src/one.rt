// The run of one process with one thread.
ghost use Rattle.std.specs.Prelude.{◌≡◌, ◌<◌, ◌≤◌, ◌-◌, ◌+◌, ◌∷◌, [], length, min, option_map, true, ℕ, IfOk, IfNone, OnOk, None, Some};
ghost use Rattle.guest_state.specs.Fits.{Fits, HaveTypes};
ghost use Rattle.guest_state.specs.GuestThread.{GuestThread, in_frame};
ghost use Rattle.guest_state.specs.Snapshot.{thread_of};
ghost use Rattle.guest_state.specs.Steps.{answered, arguments_of};
ghost use Rattle.instance.specs.Calls.{call_numbered, i32s, type_of_call};
ghost use Rattle.instance.specs.Program.{first_memory, main_thread};
ghost use Rattle.linear_memory.specs.LinearMemory.{LinearMemory};
ghost use Rattle.runner.specs.One.{BootsAs, EndsSo};
ghost use Rattle.runner.specs.OneThread.{Enters, LeadsOn, Ran, StandsAt, end_entry, memory_after, reply_entry, reply_of, write_reply};
ghost use Rattle.wasm_ast.specs.Table.{function_type};
ghost use Rattle.wasm_steps.specs.Step.{step};
ghost use Rattle.wasm_steps.specs.Stepped.{AtCall};
ghost use Rattle.world_step.specs.Boot.{Boot, boot_world};
ghost use Rattle.world_step.specs.Journal.{IsJournal};
ghost use Rattle.world_step.specs.Run.{Run};
ghost use Rattle.world_step.specs.Weight.{weight};
ghost use Rattle.world_step.specs.World.{World};

use crate::journal::Journal;
use guest_state::Thread;
use instance::Program;
use interp::{Stop, Stopped, advance};
use linear_memory::Memory;
use std::alloc::{AllocError, Global};
use wasix_abi::{FD_WRITE, apply, request_laws, request_of};
use world_step::runs_are_journals;
use wx_types::{Bytes, Entry, Errno, Outcome, Place, Request};

/// The steps of one slice at most, where the command line names no other number.
pub const DEFAULT_SLICE: u64 = 10_000;

/// The steps that a process may run in all, where the command line names no other number.
pub const DEFAULT_FUEL: u64 = 4_294_967_296;

/// The most that a history weighs.
const MOST_WEIGHT: u64 = 268_435_456;

// The numbers of what ends a slice.
const SPENT: u16 = 1;

const OUT_OF_FUEL: u16 = 2;

const TRAPPED: u16 = 3;

const LAST_RETURN: u16 = 4;

const PROC_EXIT: u16 = 37;

/// The signal of a trap.
const ABRT: u8 = 6;

/// The signal of spent fuel.
const XCPU: u8 = 24;

/// How a run ended.
#[derive(Clone, Copy, Debug, PartialEq, Eq)]
pub enum Why {
    /// Process 1 ended with this code, by `proc_exit` or by the return of `_start` (0).
    Exited(u32),
    /// Process 1 was killed by this signal: 6 (abrt) for a trap, 24 (xcpu) once its fuel was spent.
    Killed(u8),
    /// The next entry, of this thread of this process after so many steps and of this weight, would pass the limit of the
    /// history's weight. The journal is the history before.
    JournalFull {
        /// The process's number.
        pid: u32,
        /// The thread's number in its process.
        tid: u32,
        /// The steps that ran in the slice.
        ran: u64,
        /// What the entry weighs.
        weight: u64,
    },
    /// Want of memory. The journal is the history before.
    Memory,
}

/// What is left of a run.
#[derive(Drop)]
pub struct Finished {
    /// How it ended.
    pub why: Why,
    /// The history.
    pub journal: Journal,
}

/// How process 1 ended.
#[derive(Clone, Copy)]
enum End {
    Exited(u32),
    Killed(u8),
}

/// A turn: its entry, and the end of process 1 where it came.
#[derive(Drop)]
struct Turn {
    entry: Entry,
    ended: Option<End>,
}

/// The turn that ends process 1 so, by this call.
fn end_turn(ran: u64, call: u16, end: End) -> Turn
    ensures entry { result.entry ≡ end_entry ran call }
    ensures ended { result.ended ≡ Some end }
{
    Turn {
        entry: Entry {
            pid: 1,
            tid: 1,
            ran,
            call,
            outcome: Outcome::Ended { process: true },
            signal: 0,
        },
        ended: Some(end),
    }
}

/// What a call came to.
#[derive(Drop)]
struct Reply {
    errno: u16,
    bytes: Bytes,
    place: Place,
}

/// A reply without bytes.
fn bare(alloc: Global, errno: u16) -> Reply
    ensures errno { result.errno ≡ errno }
    ensures bytes { result.bytes ≡ [] }
    ensures place { result.place ≡ Place.Nowhere }
{
    Reply {
        errno,
        bytes: Bytes::empty(alloc),
        place: Place::Nowhere,
    }
}

/// The entry of a reply.
fn reply_turn(ran: u64, call: u16, reply: Reply) -> Turn
    ensures entry { result.entry ≡ reply_entry ran call (record { errno = reply.errno; bytes = reply.bytes; place = reply.place }) }
    ensures ended { result.ended ≡ None }
{
    Turn {
        entry: Entry {
            pid: 1,
            tid: 1,
            ran,
            call,
            outcome: Outcome::Reply {
                errno: reply.errno,
                bytes: reply.bytes,
                place: reply.place,
            },
            signal: 0,
        },
        ended: None,
    }
}

/// The answer to a write over the first descriptors: the refusal that the process found, then by the descriptor.
fn answer_write(alloc: Global, refused: u16, fd: u64, bytes: Bytes) -> Reply
    ensures errno { result.errno ≡ (write_reply refused fd bytes).errno }
    ensures bytes { result.bytes ≡ (write_reply refused fd bytes).bytes }
    ensures place { result.place ≡ (write_reply refused fd bytes).place }
    ensures few { length result.bytes ≤ length bytes }
    ensures small { result.errno < 65536 }
{
    if refused != 0 {
        return bare(alloc, refused);
    }
    match fd {
        1 => Reply {
            errno: 0,
            bytes,
            place: Place::Output,
        },
        2 => Reply {
            errno: 0,
            bytes,
            place: Place::Error,
        },
        0 => bare(alloc, Errno::Notcapable.number()),
        3 => bare(alloc, Errno::Isdir.number()),
        _ => bare(alloc, Errno::Badf.number()),
    }
}

/// Runs a slice of at most so many steps. `AllocError` is want of memory and nothing else.
fn run_slice(
    program: &Program,
    memory: &mut Memory,
    thread: &mut Thread,
    most: u64,
) -> Result<Stopped, AllocError>
    requires { Fits program.now.module (thread_of program.now.module thread.old) }
    ensures ran { IfOk result (λ s. Ran program.now memory.old (thread_of program.now.module thread.old) most s.ran s.stop memory.new (thread_of program.now.module thread.new)) }
    ensures fits { OnOk result (Fits program.now.module (thread_of program.now.module thread.new)) }
    ensures main { OnOk result (thread.new.main ≡ thread.old.main) }
{
    let valid = program.valid();
    let _module = valid.module();
    let stopped = advance(valid, memory, thread, most)?;
    let _pages = memory.size();
    Ok(stopped)
}

/// The four arguments of a write.
fn four(arguments: &[u64]) -> [u32; 4]
    requires { HaveTypes (i32s 4) arguments.now }
    ensures { result ≡ arguments.now }
{
    [
        arguments[0] as u32,
        arguments[1] as u32,
        arguments[2] as u32,
        arguments[3] as u32,
    ]
}

/// The one argument of an exit.
fn exit_code(arguments: &[u64]) -> u32
    requires { HaveTypes (i32s 1) arguments.now }
    ensures { result ∷ [] ≡ arguments.now }
{
    arguments[0] as u32
}

/// The turn of a thread that stands at a call of `fd_write`. The reply is in the memory, and its error number on the stack.
/// `AllocError` is want of memory and nothing else.
fn write(
    alloc: Global,
    program: &Program,
    memory: &mut Memory,
    thread: &mut Thread,
    ran: u64,
    import: u32,
) -> Result<Turn, AllocError>
    requires fits { Fits program.now.module (thread_of program.now.module thread.old) }
    requires stands { step program.now.module memory.old (thread_of program.now.module thread.old) ≡ AtCall import }
    requires its_type { function_type program.now.module import ≡ option_map type_of_call (call_numbered 17) }
    ensures entry { IfOk result (λ t. t.entry ≡ reply_entry ran 17 (reply_of memory.old (arguments_of (thread_of program.now.module thread.old) 4))) }
    ensures ended { IfOk result (λ t. t.ended ≡ None) }
    ensures memory { OnOk result (memory.new ≡ memory_after memory.old (arguments_of (thread_of program.now.module thread.old) 4)) }
    ensures thread { OnOk result (thread_of program.now.module thread.new ≡ in_frame (answered 4 (Some (reply_of memory.old (arguments_of (thread_of program.now.module thread.old) 4)).errno)) (thread_of program.now.module thread.old)) }
    ensures fits_after { OnOk result (Fits program.now.module (thread_of program.now.module thread.new)) }
    ensures main { OnOk result (thread.new.main ≡ thread.old.main) }
{
    request_laws();
    let valid = program.valid();
    let module = valid.module();
    let _pages = memory.size();
    let _values = thread.value_count();
    let arguments = four(thread.arguments(module, 4));
    let Request {
        call,
        refused,
        words,
        one,
        two,
    } = request_of(alloc, memory, FD_WRITE, &arguments)?;
    let reply = answer_write(alloc, refused, words[0], one);
    let request = Request {
        call,
        refused,
        words,
        one: Bytes::empty(alloc),
        two,
    };
    apply(memory, &request, reply.errno, &reply.bytes);
    thread.answer(module, 4, Some(u64::from(reply.errno)));
    Ok(reply_turn(ran, FD_WRITE, reply))
}

/// The turn of a thread that stands at a call of an imported function. `AllocError` is want of memory and nothing else.
fn call(
    alloc: Global,
    program: &Program,
    memory: &mut Memory,
    thread: &mut Thread,
    ran: u64,
    import: u32,
) -> Result<Turn, AllocError>
    requires fits { Fits program.now.module (thread_of program.now.module thread.old) }
    requires stands { step program.now.module memory.old (thread_of program.now.module thread.old) ≡ AtCall import }
    requires main { thread.old.main ≡ true }
    ensures leads { IfOk result (λ t. (world : World) (first : LinearMemory) (before : GuestThread) (slice left most : ℕ) → StandsAt world program.now first before slice left → most ≡ min slice left → Ran program.now first before most ran (Stop.Call import) memory.old (thread_of program.now.module thread.old) → LeadsOn world program.now memory.new (thread_of program.now.module thread.new) slice (left - ran) t.entry t.ended) }
    ensures ran { IfOk result (λ t. t.entry.ran ≡ ran) }
    ensures fits_after { OnOk result (Fits program.now.module (thread_of program.now.module thread.new)) }
    ensures main_after { OnOk result (thread.new.main ≡ true) }
{
    let valid = program.valid();
    let module = valid.module();
    let _pages = memory.size();
    match program.call_of(import) {
        Some(FD_WRITE) => {
            let written = write(alloc, program, memory, thread, ran, import)?;
            Ok(written)
        }
        Some(_) => {
            let code = exit_code(thread.arguments(module, 1));
            Ok(end_turn(ran, PROC_EXIT, End::Exited(code)))
        }
        None => unreachable!(),
    }
}

/// One turn of the thread, whose process has so much fuel left: a slice, and the answer to what it asks for. `AllocError` is
/// want of memory and nothing else.
fn take_turn(
    alloc: Global,
    program: &Program,
    memory: &mut Memory,
    thread: &mut Thread,
    slice: u64,
    left: u64,
) -> Result<Turn, AllocError>
    requires fits { Fits program.now.module (thread_of program.now.module thread.old) }
    requires main { thread.old.main ≡ true }
    ensures leads { IfOk result (λ t. (world : World) → StandsAt world program.now memory.old (thread_of program.now.module thread.old) slice left → LeadsOn world program.now memory.new (thread_of program.now.module thread.new) slice (left - t.entry.ran) t.entry t.ended) }
    ensures within { IfOk result (λ t. t.entry.ran ≤ left) }
    ensures fits_after { OnOk result (Fits program.now.module (thread_of program.now.module thread.new)) }
    ensures main_after { OnOk result (thread.new.main ≡ true) }
{
    let most = slice.min(left);
    let Stopped { ran, stop } = run_slice(program, memory, thread, most)?;
    match stop {
        Stop::Spent => {
            if ran == left {
                Ok(end_turn(ran, OUT_OF_FUEL, End::Killed(XCPU)))
            } else {
                Ok(reply_turn(ran, SPENT, bare(alloc, 0)))
            }
        }
        Stop::Trap(_) => Ok(end_turn(ran, TRAPPED, End::Killed(ABRT))),
        Stop::Finished => Ok(end_turn(ran, LAST_RETURN, End::Exited(0))),
        Stop::Call { import } => {
            let called = call(alloc, program, memory, thread, ran, import)?;
            Ok(called)
        }
        Stop::Wait { .. } | Stop::Notify { .. } => unreachable!(),
    }
}

/// Enters a turn into the journal, and tells why the run ends where it does.
fn enter(journal: &mut Journal, turn: Turn) -> Option<Why>
    ensures enters { Enters journal.old turn.entry turn.ended journal.new result }
    ensures weighs { weight journal.new ≤ 268_435_456 }
    ensures more { IfNone result (weight journal.old + 64 ≤ weight journal.new) }
{
    let Turn { entry, ended } = turn;
    let weight = entry.weight();
    if weight > MOST_WEIGHT - journal.weight() {
        return Some(Why::JournalFull {
            pid: entry.pid,
            tid: entry.tid,
            ran: entry.ran,
            weight,
        });
    }
    match journal.push(entry) {
        Ok(()) => match ended {
            None => None,
            Some(End::Exited(code)) => Some(Why::Exited(code)),
            Some(End::Killed(signal)) => Some(Why::Killed(signal)),
        },
        Err(_) => Some(Why::Memory),
    }
}

/// The turns of a thread that stands at its boot, to the end of the run. Each weighs at least 64, so they are few.
fn run_turns(
    alloc: Global,
    program: &Program,
    memory: &mut Memory,
    thread: &mut Thread,
    slice: u64,
    fuel: u64,
) -> Finished
    requires stands { (boot : Boot) → BootsAs boot program.now slice fuel → StandsAt (boot_world boot program.now) program.now memory.old (thread_of program.now.module thread.old) slice fuel }
    requires fits { Fits program.now.module (thread_of program.now.module thread.old) }
    requires main { thread.old.main ≡ true }
    ensures run { (boot : Boot) → BootsAs boot program.now slice fuel → Run boot result.journal }
    ensures cause { (boot : Boot) → BootsAs boot program.now slice fuel → EndsSo boot result.journal result.why }
{
    let mut journal = Journal::new(alloc);
    let mut left = fuel;
    loop {
        match take_turn(alloc, program, memory, thread, slice, left) {
            Ok(turn) => {
                left -= turn.entry.ran;
                if let Some(why) = enter(&mut journal, turn) {
                    return Finished { why, journal };
                }
            }
            Err(_) => {
                return Finished {
                    why: Why::Memory,
                    journal,
                };
            }
        }
    }
}

/// The memory and the thread that a program begins with. `AllocError` is want of memory and nothing else.
fn start(alloc: Global, program: &Program) -> Result<(Memory, Thread), AllocError>
    ensures memory { IfOk result (λ s. s.0 ≡ first_memory program.now.module) }
    ensures thread { IfOk result (λ s. thread_of program.now.module s.1 ≡ main_thread program.now.module) }
    ensures fits { IfOk result (λ s. Fits program.now.module (thread_of program.now.module s.1)) }
{
    let memory = program.memory(alloc)?;
    let thread = program.main_thread(alloc)?;
    Ok((memory, thread))
}

/// Runs process 1 with one thread on the program to the end of the run, with this slice and this fuel. It waits for nobody.
///
/// `Why::Memory` is want of memory, which may come at any place.
pub fn run_one(alloc: Global, program: &Program, slice: u64, fuel: u64) -> Finished
    // For each boot whose program this is, the journal is one of the model.
    ensures journal { (boot : Boot) → BootsAs boot program.now slice fuel → IsJournal boot result.journal }
    // The history leads to the end that is told.
    ensures cause { (boot : Boot) → BootsAs boot program.now slice fuel → EndsSo boot result.journal result.why }
{
    runs_are_journals();
    match start(alloc, program) {
        Ok((mut memory, mut thread)) => {
            run_turns(alloc, program, &mut memory, &mut thread, slice, fuel)
        }
        Err(_) => Finished {
            why: Why::Memory,
            journal: Journal::new(alloc),
        },
    }
}
