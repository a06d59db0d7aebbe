//! The suite of paths and of the file tree: for each line of the script that is named, the line and what the
//! call answers. The script, data/tree.txt, and the lines that are expected of it come from make_cases.py,
//! which has the rules of the tree as a model of its own.
#![tactic(auto)]

mod answer;
mod calls;
mod words;

use anyhow::{Context, Result};
use file_tree::Tree;
use std::rt::{Env, Files};
use std::{env, fs};

/// Prints the answer to a line of the script. Empty lines and those that begin with `#` have none; the line
/// `new` begins with a new tree.
fn print_line(rt: &(impl Print + AllocGlobal), tree: &mut Tree, line: &str) -> Result<()> {
    if line.is_empty() || line.starts_with("#") {
        return Ok(());
    }
    if line == "new" {
        *tree = Tree::new(rt.alloc())?;
        println!(rt; "new")?;
        return Ok(());
    }
    let answer = calls::answer(rt.alloc(), tree, line)?;
    println!(rt; "{line}: {answer}")?;
    Ok(())
}

fn run(rt: &(impl Env + Files + Print + AllocGlobal)) -> Result<()> {
    let Some(path) = env::args(rt)?.nth(1) else {
        return Err(anyhow::anyhow!("which file has the script?"));
    };
    let text = fs::read_to_string(rt, path.as_str()).context("reading the script")?;
    let mut tree = Tree::new(rt.alloc())?;
    for line in text.lines() {
        print_line(rt, &mut tree, line).context(format_args!("{line:.60}"))?;
    }
    Ok(())
}

fn main(rt: HostRuntime) -> Result<()> {
    run(&rt)
}
