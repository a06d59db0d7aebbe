// The top call that runs everything on one thread, and returns.
ghost use Rattle.std.specs.Prelude.{◌≡◌, ◌≢◌, ◌<◌, ◌≤◌, ◌⊎◌, ◌++◌, ◌↔◌, ℕ, List, [], map, string_bytes, Option, Some, None, is_some, Ok, IfSome};
ghost use Rattle.wx_types.specs.Files.{Files, told_file, file_named};
ghost use Rattle.wx_types.specs.Outside.{Rose};
ghost use Rattle.instance.specs.Loads.{Loads};
ghost use Rattle.instance.specs.declared.fault.LoadFault.{LoadFault as Fault};
ghost use Rattle.world_step.specs.Boot.{Boot};
ghost use Rattle.world_step.specs.Journal.{IsJournal};
ghost use Rattle.runner.specs.One.{EndsSo};
ghost use Rattle.wasix_run.specs.Printed.{printed};
ghost use Rattle.wasix_run.specs.Texts.{text_of};
ghost use Rattle.wasix_run.specs.Status.{status_of};
ghost use Rattle.wasix_run.specs.Line.{Command as Words, line};
ghost use Rattle.wasix_run.specs.Verdict.{Verdict, Runs, Writes};
ghost use Rattle.wasix_run.specs.Judging.{IsVerdict, HasVerdict, one_boot};
ghost use Rattle.wasix_run.specs.Serves.{IsFailure, Follows, Left, Begun, IsUnbegun, IsToWrite, Keeps, Serves, reason_of};
ghost use Rattle.wasix_run.specs.Loading.{CountsRead};
ghost use Rattle.wasix_run.specs.Outside.{Took, ShelfCounts, SinkCounts, IsText};

use crate::asm::module_bytes;
use crate::file_fault::{FileFault, fault_reason};
use crate::line::{Command, command_of};
use crate::load::{load, program_reason};
use crate::pack::image_bytes;
use crate::print::Stream;
use crate::reason::Reason;
use crate::report::report;
use instance::{LoadFault, Program};
use runner::journal::Journal;
use runner::one::{DEFAULT_FUEL, DEFAULT_SLICE, Finished, Why, run_one};
use std::alloc::Global;
use world_step::{one_file_is_there, runs_are_journals};
use wx_types::{Bytes, Shelf, Sink, Source};

/// What a top call leaves: why it ended and the exit status that tells it, the history, and the objects that it was
/// given.
#[derive(Drop)]
pub struct Ended<I, O, E> {
    pub reason: Reason,
    /// The exit status of the reason.
    pub status: u8,
    /// The history of the run; empty where no run was begun.
    pub journal: Journal,
    pub input: I,
    pub out: O,
    pub err: E,
}

fn make_ended<I, O, E>(reason: Reason, journal: Journal, input: I, out: O, err: E) -> Ended<I, O, E>
    ensures reason { result.reason ≡ reason }
    ensures status { result.status ≡ status_of reason }
    ensures journal { result.journal ≡ journal }
    ensures input { result.input ≡ input }
    ensures out { result.out ≡ out }
    ensures err { result.err ≡ err }
{
    Ended {
        status: reason.status(),
        reason,
        journal,
        input,
        out,
        err,
    }
}

// the reason that tells how a run ended
fn run_reason(why: Why) -> Reason
    ensures { result ≡ reason_of why }
{
    match why {
        Why::Exited(code) => Reason::Exited(code),
        Why::Killed(signal) => Reason::Killed(signal),
        Why::JournalFull {
            pid,
            tid,
            ran,
            weight,
        } => Reason::JournalFull {
            pid,
            tid,
            ran,
            weight,
        },
        Why::Memory => Reason::Memory,
    }
}

/// The answer to a command: why it ended, and the history.
#[derive(Drop)]
struct Answer {
    reason: Reason,
    journal: Journal,
}

// the answer where no run was begun
fn without_run(alloc: Global, reason: Reason) -> Answer
    ensures reason { result.reason ≡ reason }
    ensures journal { result.journal ≡ [] }
{
    Answer {
        reason,
        journal: Journal::new(alloc),
    }
}

// the run of a program, from the boot of any bytes of it
fn run(alloc: Global, program: &Program) -> Answer
    ensures { (why : Why) × (result.reason ≡ reason_of why)
        × ((bytes : List ℕ) → Loads bytes (Ok program.now) → IsJournal (one_boot bytes) result.journal × EndsSo (one_boot bytes) result.journal why) }
{
    one_file_is_there();
    let Finished { why, journal } = run_one(alloc, program, DEFAULT_SLICE, DEFAULT_FUEL);
    Answer {
        reason: run_reason(why),
        journal,
    }
}

// the bytes put under the name
fn write<H: Shelf>(shelf: &mut H, name: &str, bytes: &[u8]) -> Reason
    ensures either { (result ≡ Reason.Done) ⊎ (result ≡ Reason.ShelfFault) }
    ensures never_falls { H.faults shelf.old ≤ H.faults shelf.new }
    ensures no_fault { result ≡ Reason.Done → H.faults shelf.new ≡ H.faults shelf.old }
    ensures fault { result ≡ Reason.ShelfFault → Rose (H.faults shelf.old) (H.faults shelf.new) }
    ensures tells { is_some (H.held shelf.new) ≡ is_some (H.held shelf.old) }
    ensures others { (other : List ℕ) → other ≢ name.now → told_file (H.held shelf.new) other ≡ told_file (H.held shelf.old) other }
    ensures written { result ≡ Reason.Done → IfSome (H.held shelf.new) (λ files. file_named files name.now ≡ Some bytes.now) }
{
    match shelf.write(name, bytes) {
        Ok(()) => Reason::Done,
        Err(_) => Reason::ShelfFault,
    }
}

// the answer where these bytes are to be put under the name, or there are none for this reason
fn written<H: Shelf>(
    alloc: Global,
    shelf: &mut H,
    name: &str,
    bytes: Result<Bytes, FileFault>,
) -> Answer
    ensures serves { (words : List (List ℕ)) (told : Option Files) (command : Words) → line words ≡ Some command → IsToWrite words told name.now bytes → Serves words told result.reason result.journal }
    ensures counts { (before : ℕ) → before ≤ H.faults shelf.old → CountsRead bytes before (H.faults shelf.old) → ShelfCounts result.reason before (H.faults shelf.new) }
    ensures shelf { (words : List (List ℕ)) (before : ℕ) → before ≤ H.faults shelf.old → IsToWrite words (H.held shelf.old) name.now bytes
        → Keeps words (H.held shelf.old) (H.held shelf.new) before (H.faults shelf.new) result.reason }
{
    match bytes {
        Ok(bytes) => without_run(alloc, write(shelf, name, bytes.as_slice())),
        Err(fault) => without_run(alloc, fault_reason(fault)),
    }
}

// the answer to the words
fn serve<H: Shelf>(alloc: Global, words: &[String], shelf: &mut H) -> Answer
    ensures serves { Serves (map string_bytes words.now) (H.held shelf.old) result.reason result.journal }
    ensures counts { ShelfCounts result.reason (H.faults shelf.old) (H.faults shelf.new) }
    ensures shelf { Keeps (map string_bytes words.now) (H.held shelf.old) (H.held shelf.new) (H.faults shelf.old) (H.faults shelf.new) result.reason }
{
    match command_of(words) {
        None => without_run(alloc, Reason::Usage),
        Some(Command::One(file)) => match load(alloc, shelf, file) {
            Ok(program) => run(alloc, &program),
            Err(fault) => without_run(alloc, program_reason(fault)),
        },
        Some(Command::Pack(list, out)) => {
            let bytes = image_bytes(alloc, shelf, list);
            written(alloc, shelf, out, bytes)
        }
        Some(Command::Asm(text, out)) => {
            let bytes = module_bytes(alloc, shelf, text);
            written(alloc, shelf, out, bytes)
        }
    }
}

/// Runs the command that the words are, and returns.
///
/// `one FILE` runs the program in FILE as process 1, `pack LIST OUT` writes the image of the list in LIST under OUT, and `asm TEXT
/// OUT` the module of the text in TEXT. The refusals are tested in the order of the words, the shelf's reads, the lengths of the
/// files, and the list, the text or the program; where one of them comes no run is begun, nothing is written, and the journal is
/// empty. What the run printed is written from the history: output first, then errors, also where the output failed, and then the
/// text of the reason.
pub fn wasix_serial<H: Shelf, I: Source, O: Sink, E: Sink>(
    alloc: Global,
    words: &[String],
    shelf: &mut H,
    input: I,
    out: O,
    err: E,
) -> Ended<I, O, E>
    // Whatever words and files come to, the reason is that or the run's end, unless an object of the outside failed or memory ran out.
    ensures verdict { (files : Files) (verdict : Verdict) → H.held shelf.old ≡ Some files → IsVerdict (map string_bytes words.now) files verdict → Follows verdict result.reason result.journal ⊎ IsFailure result.reason }
    // And a reason comes only where words and files come to it.
    ensures cause { (files : Files) → H.held shelf.old ≡ Some files → IsFailure result.reason ⊎ ((verdict : Verdict) × IsVerdict (map string_bytes words.now) files verdict × Follows verdict result.reason result.journal) }
    // Where no count of faults rose, it is the verdict's reason or the run's end, or memory ran out.
    ensures complete { (files : Files) (verdict : Verdict) → H.held shelf.old ≡ Some files → IsVerdict (map string_bytes words.now) files verdict
        → (Rose (H.faults shelf.old) (H.faults shelf.new) → ⊥) → (Rose (O.faults out) (O.faults result.out) → ⊥) → (Rose (E.faults err) (E.faults result.err) → ⊥)
        → Follows verdict result.reason result.journal ⊎ (result.reason ≡ Reason.Memory) }
    // Without the files, the words alone say where they are no command.
    ensures usage { (result.reason ≡ Reason.Usage → line (map string_bytes words.now) ≡ None)
        × (line (map string_bytes words.now) ≡ None → (result.reason ≡ Reason.Usage) ⊎ (result.reason ≡ Reason.WriteFault)) }
    ensures no_other_fault { result.reason ≢ Reason.BadProgram Fault.Memory }
    ensures status { result.status ≡ status_of result.reason }

    // The journal is a run of the model from the boot that words and files come to; each entry's reply is the model's, each guest thread's
    // stops are in it in their order, and what was read from a pipe is a prefix of what was written to it.
    ensures journal { (files : Files) (boot : Boot) → H.held shelf.old ≡ Some files → IsVerdict (map string_bytes words.now) files (Runs boot) → IsJournal boot result.journal }
    // A run that is begun comes to its end, or memory runs out, whatever the sinks do.
    ensures ends { (files : Files) (boot : Boot) → H.held shelf.old ≡ Some files → IsVerdict (map string_bytes words.now) files (Runs boot) → Left boot result.reason result.journal }
    // Also where the shelf tells nothing, the journal is that of the boot of bytes within the limit, or empty since no run was begun.
    ensures begun { IsUnbegun result.reason result.journal ⊎ Begun (map string_bytes words.now) (H.held shelf.old) result.reason result.journal }
    // Words that are no command, and files that boot nothing, leave an empty journal.
    ensures no_command { line (map string_bytes words.now) ≡ None → result.journal ≡ [] }
    ensures no_boot { (files : Files) → H.held shelf.old ≡ Some files → ((boot : Boot) → IsVerdict (map string_bytes words.now) files (Runs boot) → ⊥) → result.journal ≡ [] }

    // The source is handed back as it came: nothing was read.
    ensures input { result.input ≡ input }
    // The shelf holds what it held, but for the name that is to be written, which holds just the bytes that are to be written there.
    ensures shelf { Keeps (map string_bytes words.now) (H.held shelf.old) (H.held shelf.new) (H.faults shelf.old) (H.faults shelf.new) result.reason }
    // With Done it does hold them.
    ensures done { (files : Files) (name bytes : List ℕ) → H.held shelf.old ≡ Some files → IsVerdict (map string_bytes words.now) files (Writes name bytes) → result.reason ≡ Reason.Done → told_file (H.held shelf.new) name ≡ Some (Some bytes) }

    // The output took what the history prints to it, and the errors what it prints to them and then the text of the
    // answer's first reason, or none where the output failed; a sink that failed took a front. The first reason is
    // the one that is told, unless a sink failed.
    ensures output { Took (O.taken out) (O.taken result.out) (O.faults out) (O.faults result.out) (printed Stream.Output result.journal) }
    ensures errors { (first : Reason) × (text : List ℕ) × Took (E.taken err) (E.taken result.err) (E.faults err) (E.faults result.err) (printed Stream.Errors result.journal ++ text)
        × IsText first result.reason text (Rose (O.faults out) (O.faults result.out)) (Rose (E.faults err) (E.faults result.err))
        × Serves (map string_bytes words.now) (H.held shelf.old) first result.journal
        × ShelfCounts first (H.faults shelf.old) (H.faults shelf.new) }

    // Each count of faults rises only where the reason tells so, and each fault is told only where a count rose.
    ensures shelf_counts { ShelfCounts result.reason (H.faults shelf.old) (H.faults shelf.new) }
    ensures output_counts { SinkCounts result.reason (O.faults out) (O.faults result.out) }
    ensures errors_counts { SinkCounts result.reason (E.faults err) (E.faults result.err) }
    ensures write_fault { result.reason ≡ Reason.WriteFault → Rose (O.faults out) (O.faults result.out) ⊎ Rose (E.faults err) (E.faults result.err) }
{
    runs_are_journals();
    one_file_is_there();
    let mut out = out;
    let mut err = err;
    let Answer { reason, journal } = serve(alloc, words, shelf);
    let reason = report(reason, &journal, &mut out, &mut err);
    make_ended(reason, journal, input, out, err)
}
