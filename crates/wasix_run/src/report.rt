// The end of a top call: what the run printed, and the text of its reason.
ghost use Rattle.std.specs.Prelude.{◌≡◌, ◌≢◌, ◌≤◌, ◌<◌, ◌⊎◌, ◌++◌, ℕ, List, [], OnOk, OnErr, true, if◌then◌else◌};
ghost use Rattle.wx_types.specs.Outside.{Rose, followed_by, GrewByFront};
ghost use Rattle.wasix_run.specs.Printed.{printed};
ghost use Rattle.wasix_run.specs.Texts.{text_of};
ghost use Rattle.wasix_run.specs.Serves.{IsToldAs};
ghost use Rattle.wasix_run.specs.Outside.{Took, IsText};

use crate::print::{Stream, print};
use crate::reason::Reason;
use runner::journal::Journal;
use wx_types::{Failed, Sink, write_whole};

// the reason where a sink failed
fn write_fault(reason: Reason) -> Reason
    ensures told { IsToldAs reason result }
    ensures fault { (result ≡ Reason.WriteFault) ⊎ (result ≡ Reason.Memory) }
{
    match reason {
        Reason::Memory => Reason::Memory,
        _ => Reason::WriteFault,
    }
}

// the text of the reason, or none where the output wasn't taken
fn text_after(reason: &Reason, taken: bool) -> &'static str
    ensures { result.now ≡ (if taken then text_of reason.now else []) }
{
    if taken { reason.text() } else { "" }
}

// what the run printed as errors, and then the text
fn report_errors<E: Sink>(journal: &Journal, text: &str, err: &mut E) -> Result<(), Failed>
    ensures never_falls { E.faults err.old ≤ E.faults err.new }
    ensures no_fault { OnOk result (E.faults err.new ≡ E.faults err.old) }
    ensures fault { OnErr result (Rose (E.faults err.old) (E.faults err.new)) }
    ensures took { Took (E.taken err.old) (E.taken err.new) (E.faults err.old) (E.faults err.new) (printed Stream.Errors journal.now ++ text.now) }
{
    match print(journal, Stream::Errors, err) {
        Err(failed) => return Err(failed),
        Ok(()) => {}
    }
    match write_whole(err, text.as_bytes()) {
        Err(failed) => Err(failed),
        Ok(()) => Ok(()),
    }
}

/// Writes what the history prints, output first, and then errors, also where the output failed; and then the text of the
/// reason, unless the output failed. It answers the reason, with the write's fault in its place where a sink failed.
pub fn report<O: Sink, E: Sink>(
    reason: Reason,
    journal: &Journal,
    out: &mut O,
    err: &mut E,
) -> Reason
    ensures told { IsToldAs reason result }
    ensures fault { (result ≡ reason) ⊎ Rose (O.faults out.old) (O.faults out.new) ⊎ Rose (E.faults err.old) (E.faults err.new) }
    ensures out_never_falls { O.faults out.old ≤ O.faults out.new }
    ensures err_never_falls { E.faults err.old ≤ E.faults err.new }
    ensures out_rose { O.faults out.old < O.faults out.new → (result ≡ Reason.WriteFault) ⊎ (result ≡ Reason.Memory) }
    ensures err_rose { E.faults err.old < E.faults err.new → (result ≡ Reason.WriteFault) ⊎ (result ≡ Reason.Memory) }
    ensures output { Took (O.taken out.old) (O.taken out.new) (O.faults out.old) (O.faults out.new) (printed Stream.Output journal.now) }
    ensures errors { (text : List ℕ) × Took (E.taken err.old) (E.taken err.new) (E.faults err.old) (E.faults err.new) (printed Stream.Errors journal.now ++ text)
        × IsText reason result text (Rose (O.faults out.old) (O.faults out.new)) (Rose (E.faults err.old) (E.faults err.new)) }
{
    let out_taken = print(journal, Stream::Output, out);
    let text = text_after(&reason, out_taken.is_ok());
    let err_taken = report_errors(journal, text, err);
    match out_taken {
        Err(_) => write_fault(reason),
        Ok(()) => match err_taken {
            Err(_) => write_fault(reason),
            Ok(()) => reason,
        },
    }
}
