//! What a history says, as text.

use runner::journal::Journal;
use std::alloc::{AllocError, Global};
use std::fmt::Write;
use wx_types::{Entry, Outcome, Place};

/// The most bytes that are shown; of more the count is.
const MOST_SHOWN: u64 = 1_024;

/// The most entries that are shown; of more the count is.
const MOST_ENTRIES: usize = 8;

/// The bytes of an entry's reply, where it has that place.
fn printed_by(entry: &Entry, to: Place) -> &[u8] {
    match &entry.outcome {
        Outcome::Reply { bytes, place, .. } if *place == to => bytes.as_slice(),
        _ => &[],
    }
}

/// What the replies printed to a place: hexadecimal digits, a count where the bytes are many, and `-` for none.
pub fn told_printed(alloc: Global, journal: &Journal, to: Place) -> Result<String, AllocError> {
    let mut count: u64 = 0;
    let mut shown = Vec::new(alloc);
    for i in 0..journal.len() {
        if let Some(entry) = journal.get(i) {
            let bytes = printed_by(entry, to);
            count = count.saturating_add(bytes.len() as u64);
            if count <= MOST_SHOWN {
                shown.extend_from_slice(bytes)?;
            }
        }
    }
    if count == 0 {
        return format!(in alloc; "-");
    }
    if count > MOST_SHOWN {
        return format!(in alloc; "{count} bytes");
    }
    hex::encode(alloc, shown.as_slice())
}

/// The name of a call that ends a slice.
fn call_name(call: u16) -> &'static str {
    match call {
        1 => "spent",
        2 => "fuel",
        3 => "trap",
        4 => "return",
        17 => "fd_write",
        37 => "proc_exit",
        _ => "another call",
    }
}

/// Writes an outcome: of a reply its error number and how many bytes it has.
fn write_outcome(text: &mut String, outcome: &Outcome) -> Result<(), AllocError> {
    match outcome {
        Outcome::Reply { errno, bytes, .. } => write!(text, "reply {errno} {}", bytes.len()),
        Outcome::Ended { process: true } => write!(text, "exit"),
        Outcome::Ended { process: false } => write!(text, "end"),
        _ => write!(text, "another outcome"),
    }
}

/// Writes an entry: process and thread, steps, call and outcome, and a signal where it delivers one.
fn write_entry(text: &mut String, entry: &Entry) -> Result<(), AllocError> {
    let name = call_name(entry.call);
    write!(text, "{}.{} +{} {name} ", entry.pid, entry.tid, entry.ran)?;
    write_outcome(text, &entry.outcome)?;
    if entry.signal != 0 {
        write!(text, " sig {}", entry.signal)?;
    }
    Ok(())
}

/// The entries of a history, or how many they are, where they are many.
pub fn told_entries(alloc: Global, journal: &Journal) -> Result<String, AllocError> {
    if journal.len() > MOST_ENTRIES {
        return format!(in alloc; "{} entries", journal.len());
    }
    let mut text = String::new(alloc);
    let mut between = "";
    for i in 0..journal.len() {
        if let Some(entry) = journal.get(i) {
            write!(text, "{between}")?;
            write_entry(&mut text, entry)?;
            between = ", ";
        }
    }
    Ok(text)
}
