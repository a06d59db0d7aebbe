//! The suite of pipes, descriptors and open descriptions: for each row of the file that is named, the row
//! and what is answered. The rows in `data/cases.txt` and the lines that are expected of them come from
//! `make_cases.py` beside this folder, which states the rules anew.
#![tactic(auto)]

mod bytes;
mod pipe_rows;
mod process;
mod process_rows;

use anyhow::{Context, Result};
use process::Process;
use std::rt::{Env, Files};
use std::{env, fs};

/// Prints the line of a row. Empty lines and those that begin with `#` have none.
fn print_row(rt: &(impl Print + AllocGlobal), process: &mut Process, row: &str) -> Result<()> {
    if row.is_empty() || row.starts_with("#") {
        return Ok(());
    }
    let mut words = row.split_whitespace();
    let answer = match words.next() {
        Some("pipe") => pipe_rows::answer(rt.alloc(), &mut words)?,
        Some(first) => process_rows::answer(rt.alloc(), process, first, &mut words)?,
        None => None,
    };
    match answer {
        Some(text) => println!(rt; "{row}: {text}")?,
        None => return Err(anyhow::anyhow!("no such row")),
    }
    Ok(())
}

fn run(rt: &(impl Env + Files + Print + AllocGlobal)) -> Result<()> {
    let Some(path) = env::args(rt)?.nth(1) else {
        return Err(anyhow::anyhow!("which file has the rows?"));
    };
    let text = fs::read_to_string(rt, path.as_str()).context("reading the rows")?;
    let mut process = Process::new(rt.alloc(), "")?;
    for row in text.lines() {
        print_row(rt, &mut process, row).context(format_args!("{row:.60}"))?;
    }
    Ok(())
}

fn main(rt: HostRuntime) -> Result<()> {
    run(&rt)
}
