// Counts of open ends by pipe.
ghost use Rattle.std.specs.Prelude.{◌≡◌, ℕ, ◌<◌, ◌≤◌, ◌+◌, ◌==◌, ◌^◌, false, true, nat_lt, if◌then◌else◌, OnOk, OnErr};
ghost use Rattle.open_desc.specs.Descriptions.{is_end};
ghost use Rattle.open_desc.specs.Ends.{count_of};

use crate::description::Kind;
use std::alloc::AllocError;
use std::collections::BTreeMap;

/// How many ends of one side are open, by pipe.
pub(crate) type EndCounts = BTreeMap<u32, usize>;

/// Whether an end of the pipe is open.
pub(crate) fn has_end(counts: &EndCounts, pipe: u32) -> bool
    ensures { result ≡ nat_lt 0 (count_of counts.now pipe) }
{
    match counts.get(&pipe) {
        Some(count) => *count > 0,
        None => false,
    }
}

/// Counts one more end of the pipe. `AllocError` is out of memory, and all is as before.
pub(crate) fn add_end(counts: &mut EndCounts, pipe: u32) -> Result<(), AllocError>
    requires { count_of counts.old pipe + 1 < 2 ^ 64 }
    ensures ok { OnOk result ((q : ℕ) → count_of counts.new q ≡ count_of counts.old q + (if q == pipe then 1 else 0)) }
    ensures err { OnErr result ((q : ℕ) → count_of counts.new q ≡ count_of counts.old q) }
{
    let count = counts.get(&pipe).copied().unwrap_or(0);
    counts.insert(pipe, count + 1)?;
    Ok(())
}

/// Counts one end of the pipe fewer.
pub(crate) fn remove_end(counts: &mut EndCounts, pipe: u32)
    requires { 0 < count_of counts.old pipe }
    ensures { (q : ℕ) → count_of counts.new q + (if q == pipe then 1 else 0) ≡ count_of counts.old q }
{
    let count = counts.get(&pipe).copied().unwrap_or(0);
    if count <= 1 {
        counts.remove(&pipe);
        return;
    }
    if counts.insert(pipe, count - 1).is_err() {
        unreachable!();
    }
}

/// Counts a description of this kind that was opened. `AllocError` is out of memory, and all is as
/// before.
pub(crate) fn end_opened(
    readers: &mut EndCounts,
    writers: &mut EndCounts,
    kind: Kind,
) -> Result<(), AllocError>
    requires reading { (q : ℕ) → count_of readers.old q + 1 < 2 ^ 64 }
    requires writing { (q : ℕ) → count_of writers.old q + 1 < 2 ^ 64 }
    ensures reading { OnOk result ((q : ℕ) → count_of readers.new q ≡ count_of readers.old q + (if is_end q false kind then 1 else 0)) }
    ensures writing { OnOk result ((q : ℕ) → count_of writers.new q ≡ count_of writers.old q + (if is_end q true kind then 1 else 0)) }
    ensures same_reading { OnErr result ((q : ℕ) → count_of readers.new q ≡ count_of readers.old q) }
    ensures same_writing { OnErr result ((q : ℕ) → count_of writers.new q ≡ count_of writers.old q) }
{
    match kind {
        Kind::PipeRead(pipe) => add_end(readers, pipe),
        Kind::PipeWrite(pipe) => add_end(writers, pipe),
        _ => Ok(()),
    }
}

/// Counts a description of this kind that was closed.
pub(crate) fn end_closed(readers: &mut EndCounts, writers: &mut EndCounts, kind: Kind)
    requires reading { (q : ℕ) → (if is_end q false kind then 1 else 0) ≤ count_of readers.old q }
    requires writing { (q : ℕ) → (if is_end q true kind then 1 else 0) ≤ count_of writers.old q }
    ensures reading { (q : ℕ) → count_of readers.new q + (if is_end q false kind then 1 else 0) ≡ count_of readers.old q }
    ensures writing { (q : ℕ) → count_of writers.new q + (if is_end q true kind then 1 else 0) ≡ count_of writers.old q }
{
    match kind {
        Kind::PipeRead(pipe) => remove_end(readers, pipe),
        Kind::PipeWrite(pipe) => remove_end(writers, pipe),
        _ => {}
    }
}
