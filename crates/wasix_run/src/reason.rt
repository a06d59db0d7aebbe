// Why a top call ended, the exit status that tells it, and its text.
ghost use Rattle.std.specs.Prelude.{◌≡◌};
ghost use Rattle.wasix_run.specs.Status.{status_of};
ghost use Rattle.wasix_run.specs.Texts.{text_of, program_text, line_of};

use instance::LoadFault;
use wat_asm::AsmKind;

/// Why a top call ended.
#[derive(Drop)]
pub enum Reason {
    /// Process 1 ended with this code, by `proc_exit` or by the return of `_start` (0). The exit status is the code modulo 256.
    Exited(u32),
    /// Process 1 was killed by this signal: 6 (abrt) for a trap, 24 (xcpu) once its fuel was spent. Exit status 128 and the signal,
    /// modulo 256.
    Killed(u8),
    /// The next entry, of this thread of this process after so many steps and of this weight, would pass the limit of the history's
    /// weight. Exit status 124.
    JournalFull {
        /// The process's number.
        pid: u32,
        /// The thread's number in its process.
        tid: u32,
        /// The steps that ran in the slice.
        ran: u64,
        /// What the entry weighs.
        weight: u64,
    },
    /// The words are no command. Exit status 64.
    Usage,
    /// The shelf failed to give or take a file. Exit status 66.
    ShelfFault,
    /// A named file is longer than its limit. Exit status 66.
    TooLong,
    /// This line of the pack list is the first that is wrong. Exit status 65.
    BadList {
        /// The line's number, from 1.
        line: u32,
    },
    /// The text is no module's. Exit status 65.
    BadText {
        /// The number of the line of the fault, from 1.
        line: u32,
        /// What is wrong there.
        kind: AsmKind,
    },
    /// The named file is no program that can be run. The fault is never `Memory`. Exit status 126.
    BadProgram(LoadFault),
    /// The command wrote its file. Exit status 0.
    Done,
    /// A sink failed to take what the run printed or the text of the reason. Exit status 74.
    WriteFault,
    /// Want of memory. Exit status 71.
    Memory,
}

// what is told of a program that isn't loaded
fn program_text(fault: &LoadFault) -> &'static str
    ensures { result.now ≡ line_of (program_text fault.now) }
{
    match fault {
        LoadFault::NotYet => "wasix: not built yet\n",
        _ => "wasix: bad program\n",
    }
}

impl Reason {
    /// The exit status that tells the reason.
    pub fn status(&self) -> u8
        ensures { result ≡ status_of self.now }
    {
        match self {
            Reason::Exited(code) => (*code % 256) as u8,
            Reason::Killed(signal) => ((128 + *signal as u16) % 256) as u8,
            Reason::JournalFull { .. } => 124,
            Reason::Usage => 64,
            Reason::BadList { .. } | Reason::BadText { .. } => 65,
            Reason::ShelfFault | Reason::TooLong => 66,
            Reason::BadProgram(_) => 126,
            Reason::Done => 0,
            Reason::WriteFault => 74,
            Reason::Memory => 71,
        }
    }

    /// The line that tells the reason on the error stream; empty where there is none.
    pub fn text(&self) -> &'static str
        ensures { result.now ≡ text_of self.now }
    {
        match self {
            Reason::Exited(_) | Reason::Killed(_) | Reason::Done | Reason::WriteFault => "",
            Reason::JournalFull { .. } => "wasix: journal full\n",
            Reason::Usage => "usage: wasix one|run|asm|pack|kit|gen|trace\n",
            Reason::ShelfFault => "wasix: file fault\n",
            Reason::TooLong => "wasix: file too long\n",
            Reason::BadList { .. } => "wasix: bad list\n",
            Reason::BadText { .. } => "wasix: bad text\n",
            Reason::BadProgram(fault) => program_text(fault),
            Reason::Memory => "wasix: out of memory\n",
        }
    }
}
