//! The world of all processes, and how an entry of the history leads from one world to the next.
#![tactic(auto)]

ghost use Rattle.world_step.specs.Laws.{RunsBegin, RunsGoOn, RunsAreCut, EntriesAreDetermined, RunsLeadToOne, RunsStayReady, LivesByLineage, RunsAreJournals, BootsLeadToOne, OneFileIsThere};

/// A run begins open, with thread 1 of process 1 handed out; it goes on by one entry at its end, and is cut anywhere.
pub fn runs_go_on()
    ensures begin { RunsBegin }
    ensures at_the_end { RunsGoOn }
    ensures cut { RunsAreCut }
{}

/// A world and a thread determine the entry and the next world, and entries one world.
pub fn histories_determine_worlds()
    ensures entry { EntriesAreDetermined }
    ensures world { RunsLeadToOne }
    ensures from_boot { BootsLeadToOne }
{}

/// While a run is open, some thread is handed out, or was ended while it was.
pub fn runs_stay_ready()
    ensures { RunsStayReady }
{}

/// Each live process is the one to which its lineage leads.
pub fn processes_live_by_lineage()
    ensures { LivesByLineage }
{}

/// A run is all that a journal is: each entry is the model's, each thread's stops stand in their order, and what was read from a
/// pipe is a prefix of what was written to it.
pub fn runs_are_journals()
    ensures { RunsAreJournals }
{}

/// The file of a tree that has one file is at its path.
pub fn one_file_is_there()
    ensures { OneFileIsThere }
{}
