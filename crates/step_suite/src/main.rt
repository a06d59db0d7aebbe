//! The suite of steps: for each row of the file that is named, the row and at what its thread stands, each time. A
//! thread runs as a whole and again in slices of one step and of three, which must come to the same. The modules and
//! rows in `data/steps.txt` and the lines that are expected of them come from `make_cases.py` beside this folder,
//! which has the rules of steps and nothing of this project's code.
#![tactic(auto)]

mod answer;
mod row;
mod text;

use anyhow::{Context, Result};
use row::Row;
use std::alloc::Global;
use std::rt::{Env, Files};
use std::{env, fs};
use wasm_validate::Valid;

/// The module of these hexadecimal digits.
fn module_of(alloc: Global, digits: &str) -> Result<Valid> {
    let bytes = hex::decode(alloc, digits)?;
    let module = wasm_decode::decode(alloc, bytes.as_slice())?;
    Ok(wasm_validate::validate(alloc, module)?)
}

/// What comes of a row, where a thread that runs in slices comes to the same.
fn answer_in_slices(alloc: Global, valid: &Valid, row: &Row) -> Result<String> {
    let Some(whole) = answer::answer_of(alloc, valid, row, answer::WHOLE)? else {
        return Err(anyhow::anyhow!("no such thread"));
    };
    for slice in [1, 3] {
        let sliced = answer::answer_of(alloc, valid, row, slice)?;
        if sliced.as_ref() != Some(&whole) {
            return Err(anyhow::anyhow!("another answer in slices"));
        }
    }
    Ok(whole)
}

/// What comes of the row of a line.
fn answer_of(alloc: Global, valid: &Valid, line: &str) -> Result<String> {
    match Row::parse(alloc, line)? {
        Some(row) => answer_in_slices(alloc, valid, &row),
        None => Err(anyhow::anyhow!("no row")),
    }
}

/// What comes of the row of a line in the module of these digits, which is read anew for each row.
fn answer_in(alloc: Global, digits: &str, line: &str) -> Result<String> {
    let valid = module_of(alloc, digits)?;
    answer_of(alloc, &valid, line)
}

/// The name and the digits of a module's line.
fn named(line: &str) -> Option<(&str, &str)> {
    line.split_once(" = ")
}

fn print_answer(
    rt: &(impl Print + AllocGlobal),
    name: &str,
    row: &str,
    answer: &str,
) -> Result<()> {
    println!(rt; "{name}: {row}: {answer}")?;
    Ok(())
}

/// The line of a row, in the module of another line.
fn print_row(rt: &(impl Print + AllocGlobal), module: &str, row: &str) -> Result<()> {
    let Some((name, digits)) = named(module) else {
        return Err(anyhow::anyhow!("no module"));
    };
    let answer = answer_in(rt.alloc(), digits, row)?;
    print_answer(rt, name, row, answer.as_str())
}

fn is_row(line: &str) -> bool {
    !line.is_empty() && !line.starts_with("#")
}

/// The lines of the rows, each in the module that stands above it.
fn print_rows(rt: &(impl Print + AllocGlobal), text: &str) -> Result<()> {
    let mut module = "";
    for line in text.lines() {
        if line.contains(" = ") {
            module = line;
        } else if is_row(line) {
            print_row(rt, module, line).context(line)?;
        }
    }
    Ok(())
}

fn run(rt: &(impl Env + Files + Print + AllocGlobal)) -> Result<()> {
    let Some(path) = env::args(rt)?.nth(1) else {
        return Err(anyhow::anyhow!("which file has the rows?"));
    };
    let text = fs::read_to_string(rt, path.as_str()).context("reading the rows")?;
    print_rows(rt, text.as_str())
}

fn main(rt: HostRuntime) -> Result<()> {
    run(&rt)
}
