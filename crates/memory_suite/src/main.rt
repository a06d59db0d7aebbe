//! The suite of memories: for each row of the file that is named, the row and what the access gives. The rows in
//! `data/accesses.txt` and the lines that are expected of them come from `make_cases.py` beside this folder, which
//! computes them with lists of bytes of its own.
#![tactic(auto)]

mod rows;

use anyhow::{Context, Result};
use linear_memory::Memory;
use std::rt::{Env, Files};
use std::{env, fs};

fn run(rt: &(impl Env + Files + Print + AllocGlobal)) -> Result<()> {
    let Some(path) = env::args(rt)?.nth(1) else {
        return Err(anyhow::anyhow!("which file has the rows?"));
    };
    let text = fs::read_to_string(rt, path.as_str()).context("reading the rows")?;
    let mut memory = Memory::new(rt.alloc(), 0, 0, false)?;
    for row in text.lines() {
        if row.is_empty() || row.starts_with("#") {
            continue;
        }
        match rows::answer_of(rt.alloc(), &mut memory, row)? {
            Some(answer) => println!(rt; "{row}: {answer}")?,
            None => return Err(anyhow::anyhow!("no such access")).context(format_args!(
                "{row:.60}"
            )),
        }
    }
    Ok(())
}

fn main(rt: HostRuntime) -> Result<()> {
    run(&rt)
}
