//! The kernel: what the host keeps of all processes and their threads, and what it answers to each call.
#![tactic(auto)]

ghost use Rattle.kernel_core.specs.Agreement.{BeginsAgreed, AnswersAgreed, GoneAgreed, SettlesAgreed, AnswersAll};
ghost use Rattle.kernel_core.specs.Readiness.{SettlesReady, SettlesAll};

/// Once the kernel settled, some thread is handed out, or ended while it was, or the run has ended.
pub fn some_thread_is_ready()
    ensures { SettlesReady }
{}

/// Once the kernel settled, no thread waits whose waiting is over, or the run has ended.
pub fn no_thread_waits_in_vain()
    ensures { SettlesAll }
{}

/// The first kernel agrees: its maps have the same processes, descriptors, descriptions and pipes, and its numbers are fresh.
pub fn first_kernel_agrees()
    ensures { BeginsAgreed }
{}

/// So does a kernel that agreed after each answer to a thread that is there; no number is used again.
pub fn answers_agree()
    ensures { AnswersAgreed }
{}

/// So it does after the entry of a thread that another one ended.
pub fn gone_threads_agree()
    ensures { GoneAgreed }
{}

/// So it does once it settled.
pub fn settled_kernel_agrees()
    ensures { SettlesAgreed }
{}

/// Each request of a call that has a row, of a thread that is handed out, has an answer.
pub fn each_row_answers()
    ensures { AnswersAll }
{}
