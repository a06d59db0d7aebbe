//! The suite of programs: for each case of the file that is named, a line that says how its module loads and runs. The cases in
//! `data/programs.txt` and the lines that are expected of them come from `make_cases.py` beside this folder, which has the modules of
//! `examples/` and further ones, and answers that were worked out by hand.
#![tactic(auto)]

mod told;

use anyhow::{Context, Result};
use instance::{Program, load};
use runner::journal::Journal;
use runner::one::{Finished, Why, run_one};
use std::alloc::Global;
use std::rt::{Env, Files};
use std::{env, fs};
use told::{told_entries, told_printed};
use wx_types::Place;

/// A case: its name, the steps of one slice, those that the process may run in all, and its module's bytes.
#[derive(Clone, Copy)]
struct Case<'a> {
    name: &'a str,
    slice: &'a str,
    fuel: &'a str,
    digits: &'a str,
}

impl<'a> Case<'a> {
    /// The case of a line `NAME: SLICE FUEL DIGITS`.
    fn parse(line: &'a str) -> Option<Case<'a>> {
        let (name, words) = line.split_once(": ")?;
        let (slice, words) = words.split_once(" ")?;
        let (fuel, digits) = words.split_once(" ")?;
        Some(Case {
            name,
            slice,
            fuel,
            digits,
        })
    }
}

/// Prints why the run ended.
fn print_why(rt: &(impl Print + AllocGlobal), why: Why) -> Result<()> {
    match why {
        Why::Exited(code) => print!(rt; "exited {code}")?,
        Why::Killed(signal) => print!(rt; "killed {signal}")?,
        Why::JournalFull {
            pid,
            tid,
            ran,
            weight,
        } => print!(rt; "journal full {pid}.{tid} +{ran} {weight}")?,
        Why::Memory => print!(rt; "out of memory")?,
    }
    Ok(())
}

/// Prints what the run left: what it printed, the weight of its history and the entries.
fn print_journal(rt: &(impl Print + AllocGlobal), journal: &Journal) -> Result<()> {
    let alloc = rt.alloc();
    let out = told_printed(alloc, journal, Place::Output)?;
    let errors = told_printed(alloc, journal, Place::Error)?;
    let entries = told_entries(alloc, journal)?;
    let weight = journal.weight();
    println!(rt; "; out {out}; err {errors}; weight {weight}; {entries}")?;
    Ok(())
}

/// Prints the run of a program.
fn print_run(
    rt: &(impl Print + AllocGlobal),
    name: &str,
    program: &Program,
    slice: u64,
    fuel: u64,
) -> Result<()> {
    let Finished { why, journal } = run_one(rt.alloc(), program, slice, fuel);
    print!(rt; "{name}: ")?;
    print_why(rt, why)?;
    print_journal(rt, &journal)
}

/// The line of a case.
fn print_case(rt: &(impl Print + AllocGlobal), case: Case) -> Result<()> {
    let alloc: Global = rt.alloc();
    let slice = case.slice.parse::<u64>()?;
    let fuel = case.fuel.parse::<u64>()?;
    let bytes = hex::decode(alloc, case.digits)?;
    match load(alloc, bytes.as_slice()) {
        Ok(program) => print_run(rt, case.name, &program, slice, fuel),
        Err(fault) => Ok(println!(rt; "{}: {fault:?}", case.name)?),
    }
}

fn run(rt: &(impl Env + Files + Print + AllocGlobal)) -> Result<()> {
    let Some(path) = env::args(rt)?.nth(1) else {
        return Err(anyhow::anyhow!("which file has the cases?"));
    };
    let text = fs::read_to_string(rt, path.as_str()).context("reading the cases")?;
    for line in text.lines() {
        if line.is_empty() || line.starts_with("#") {
            continue;
        }
        match Case::parse(line) {
            Some(case) => print_case(rt, case).context(format_args!("{line:.60}"))?,
            None => return Err(anyhow::anyhow!("no case")),
        }
    }
    Ok(())
}

fn main(rt: HostRuntime) -> Result<()> {
    run(&rt)
}
