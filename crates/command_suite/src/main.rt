//! The suite of commands: for each case of the file that is named, a line that says how its command ends and what it leaves. The
//! cases in `data/commands.txt` and the lines that are expected of them come from `make_cases.py` beside this folder, which has
//! files and answers that were worked out by hand, and nothing of this project's code.
#![tactic(auto)]

mod case;
mod told;

use anyhow::{Context, Result};
use case::{shelf_of, sink_of, words_of};
use std::alloc::Global;
use std::rt::{Env, Files};
use std::{env, fs};
use told::{print_ended, print_file};
use wasix_run::{Ended, wasix_serial};
use wx_types::{Bytes, MemShelf, MemSink, MemSource};

type MemEnded = Ended<MemSource, MemSink, MemSink>;

/// What the words leave, over a source that has no bytes.
fn serve(
    alloc: Global,
    words: &[String],
    shelf: &mut MemShelf,
    out: MemSink,
    err: MemSink,
) -> MemEnded {
    let input = MemSource::new(Bytes::empty(alloc), Vec::new(alloc));
    wasix_serial(alloc, words, shelf, input, out, err)
}

/// Prints what the command of a case leaves.
fn print_command(
    rt: &(impl Print + AllocGlobal),
    settings: &str,
    shelf: &mut MemShelf,
) -> Result<()> {
    let alloc = rt.alloc();
    let words = words_of(alloc, settings)?;
    let out = sink_of(alloc, settings, "out ")?;
    let err = sink_of(alloc, settings, "err ")?;
    let ended = serve(alloc, words.as_slice(), shelf, out, err);
    print_ended(rt, &ended)
}

/// Prints the files that a case has told, as they are in the end.
fn print_files(
    rt: &(impl Print + AllocGlobal),
    settings: &str,
    shelf: &mut MemShelf,
) -> Result<()> {
    for setting in settings.split("; ") {
        if let Some(name) = setting.strip_prefix("tell ") {
            print_file(rt, shelf, name)?;
        }
    }
    Ok(())
}

/// The line of a case `NAME: SETTING; ..`.
fn print_case(rt: &(impl Print + AllocGlobal), line: &str) -> Result<()> {
    let Some((name, settings)) = line.split_once(": ") else {
        return Err(anyhow::anyhow!("no case"));
    };
    print!(rt; "{name}: ")?;
    let mut shelf = shelf_of(rt.alloc(), settings)?;
    print_command(rt, settings, &mut shelf)?;
    print_files(rt, settings, &mut shelf)?;
    Ok(println!(rt)?)
}

fn run(rt: &(impl Env + Files + Print + AllocGlobal)) -> Result<()> {
    let Some(path) = env::args(rt)?.nth(1) else {
        return Err(anyhow::anyhow!("which file has the cases?"));
    };
    let text = fs::read_to_string(rt, path.as_str())?;
    for line in text.lines() {
        if !line.is_empty() && !line.starts_with("#") {
            print_case(rt, line).context(format_args!("{line:.60}"))?;
        }
    }
    Ok(())
}

fn main(rt: HostRuntime) -> Result<()> {
    run(&rt)
}
