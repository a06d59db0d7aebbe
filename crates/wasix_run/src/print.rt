// What a history prints, written to the sinks.
ghost use Rattle.std.specs.Prelude.{◌≡◌, ◌≤◌, ◌++◌, ℕ, IfSome, IfNone, OnOk, OnErr, []};
ghost use Rattle.wx_types.specs.Outside.{Rose, followed_by, GrewByFront};
ghost use Rattle.wasix_run.specs.Printed.{is_printed, piece, printed};

use runner::journal::Journal;
use wx_types::{Entry, Failed, Outcome, Place, Sink, write_whole};

/// A stream of process 1.
#[derive(Clone, Copy, Debug, PartialEq, Eq)]
pub enum Stream {
    /// Console output.
    Output,
    /// Console errors.
    Errors,
}

// whether the bytes of a reply with this place are the stream's
fn is_printed(stream: Stream, place: Place) -> bool
    ensures { result ≡ is_printed stream place }
{
    match stream {
        Stream::Output => matches!(place, Place::Output),
        Stream::Errors => matches!(place, Place::Error),
    }
}

// what an entry prints
fn piece_of(stream: Stream, entry: &Entry) -> &[u8]
    ensures { result.now ≡ piece stream entry.now.outcome }
{
    match &entry.outcome {
        Outcome::Reply { bytes, place, .. } => {
            if is_printed(stream, *place) {
                bytes.as_slice()
            } else {
                &[]
            }
        }
        _ => &[],
    }
}

/// Writes what the history prints to a stream. `Failed` comes only where the sink's count rose; the sink has then taken a
/// front of it.
pub fn print<S: Sink>(journal: &Journal, stream: Stream, sink: &mut S) -> Result<(), Failed>
    ensures never_falls { S.faults sink.old ≤ S.faults sink.new }
    ensures no_fault { OnOk result (S.faults sink.new ≡ S.faults sink.old) }
    ensures fault { OnErr result (Rose (S.faults sink.old) (S.faults sink.new)) }
    ensures whole { OnOk result (S.taken sink.new ≡ followed_by (S.taken sink.old) (printed stream journal.now)) }
    ensures front { OnErr result (GrewByFront (S.taken sink.old) (S.taken sink.new) (printed stream journal.now)) }
{
    for index in 0..journal.len() {
        let Some(entry) = journal.get(index) else {
            unreachable!()
        };
        match write_whole(sink, piece_of(stream, entry)) {
            Ok(()) => {}
            Err(failed) => return Err(failed),
        }
    }
    Ok(())
}
