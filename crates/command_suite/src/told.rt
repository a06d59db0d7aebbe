//! What a command leaves, as text.

use anyhow::Result;
use std::alloc::{AllocError, Global};
use wasix_run::{Ended, Reason};
use wat_asm::AsmKind;
use wx_types::{Entry, MemShelf, MemSink, MemSource, Outcome, Shelf};

/// The most bytes that are shown; of more the count is.
const MOST_SHOWN: usize = 1_024;

/// So many entries are shown, the first ones.
const MOST_ENTRIES: usize = 3;

/// The most bytes of a file that is told.
const FILE_LIMIT: u64 = 1_000_000;

/// Hexadecimal digits, a count where the bytes are many, and `-` for none.
fn told(alloc: Global, bytes: &[u8]) -> Result<String, AllocError> {
    if bytes.is_empty() {
        return String::from_str(alloc, "-");
    }
    if bytes.len() > MOST_SHOWN {
        return format!(in alloc; "{} bytes", bytes.len());
    }
    hex::encode(alloc, bytes)
}

fn name_of(reason: &Reason) -> &'static str {
    match reason {
        Reason::Exited(_) => "exited",
        Reason::Killed(_) => "killed",
        Reason::JournalFull { .. } => "journal full",
        Reason::Usage => "usage",
        Reason::ShelfFault => "shelf fault",
        Reason::TooLong => "too long",
        Reason::BadList { .. } => "bad list",
        Reason::BadText { kind, .. } => match kind {
            AsmKind::Token => "bad token",
            AsmKind::Syntax => "bad syntax",
            AsmKind::Name => "bad name",
        },
        Reason::BadProgram(_) => "bad program",
        Reason::Done => "done",
        Reason::WriteFault => "write fault",
        Reason::Memory => "out of memory",
    }
}

/// The code, signal, weight or line.
fn number_of(reason: &Reason) -> Option<u64> {
    match reason {
        Reason::Exited(code) => Some(u64::from(*code)),
        Reason::Killed(signal) => Some(u64::from(*signal)),
        Reason::JournalFull { weight, .. } => Some(*weight),
        Reason::BadList { line } | Reason::BadText { line, .. } => Some(u64::from(*line)),
        _ => None,
    }
}

fn print_reason(rt: &impl Print, reason: &Reason) -> Result<()> {
    print!(rt; "{}", name_of(reason))?;
    if let Some(number) = number_of(reason) {
        print!(rt; " {number}")?;
    }
    if let Reason::BadProgram(fault) = reason {
        print!(rt; " {fault:?}")?;
    }
    Ok(())
}

/// Of a reply its error number and how many bytes it has.
fn print_outcome(rt: &impl Print, outcome: &Outcome) -> Result<()> {
    match outcome {
        Outcome::Reply { errno, bytes, .. } => print!(rt; "reply {errno} {}", bytes.len())?,
        Outcome::Ended { process: true } => print!(rt; "exit")?,
        _ => print!(rt; "another outcome")?,
    }
    Ok(())
}

/// Process and thread, steps, call, signal and outcome.
fn print_entry(rt: &impl Print, entry: &Entry) -> Result<()> {
    print!(rt; "; {}.{} +{} ", entry.pid, entry.tid, entry.ran)?;
    print!(rt; "call {} sig {} ", entry.call, entry.signal)?;
    print_outcome(rt, &entry.outcome)
}

/// Prints why a command ended, the status, what its sinks took, how many entries its history has with their weight, and the
/// first of them.
pub fn print_ended(
    rt: &(impl Print + AllocGlobal),
    ended: &Ended<MemSource, MemSink, MemSink>,
) -> Result<()> {
    print_reason(rt, &ended.reason)?;
    let out = told(rt.alloc(), ended.out.taken())?;
    let err = told(rt.alloc(), ended.err.taken())?;
    print!(rt; "; status {}; out {out}; err {err}", ended.status)?;
    let journal = &ended.journal;
    print!(rt; "; {} entries of {}", journal.len(), journal.weight())?;
    for index in 0..MOST_ENTRIES {
        if let Some(entry) = journal.get(index) {
            print_entry(rt, entry)?;
        }
    }
    Ok(())
}

/// Prints what a file of the shelf has.
pub fn print_file(rt: &(impl Print + AllocGlobal), shelf: &mut MemShelf, name: &str) -> Result<()> {
    match shelf.read(rt.alloc(), name, FILE_LIMIT) {
        Ok(bytes) => {
            let bytes = told(rt.alloc(), bytes.as_slice())?;
            print!(rt; "; {name} {bytes}")?;
        }
        Err(_) => print!(rt; "; no {name}")?,
    }
    Ok(())
}
