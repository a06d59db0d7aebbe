//! The suite of operators: for each row of the file that is named, the row and what the operator gives. The
//! rows in `data/operators.txt` and the lines that are expected of them come from `make_cases.py` beside this
//! folder, which computes them with integers that have no bound.
#![tactic(auto)]

mod operands;
mod operators;
mod value;

use anyhow::{Context, Result};
use std::rt::{Env, Files};
use std::{env, fs};
use value::Value;

/// The number that digits of hexadecimal spell.
fn hex_digits(digits: &str) -> Option<u64> {
    u64::from_str_radix(digits, 16).ok()
}

/// What the operator of a row gives: its name, and one operand or two.
fn value_of(row: &str) -> Option<Value> {
    let mut words = row.split_whitespace();
    let name = words.next()?;
    let first = hex_digits(words.next()?)?;
    match words.next() {
        Some(second) => operators::binary(name, first, hex_digits(second)?),
        None => operators::unary(name, first),
    }
}

/// Prints what is read from the front of bytes.
fn print_reading(
    rt: &(impl Print + AllocGlobal),
    row: &str,
    name: &str,
    digits: &str,
) -> Result<()> {
    let bytes = operands::bytes_of(rt.alloc(), digits)?;
    match operands::read(name, bytes.as_slice()) {
        Some(found) => println!(rt; "{row}: {found}")?,
        None => return Err(anyhow::anyhow!("no such reading")),
    }
    Ok(())
}

/// Prints the line of a row. Empty lines and those that begin with `#` have none.
fn print_row(rt: &(impl Print + AllocGlobal), row: &str) -> Result<()> {
    if row.is_empty() || row.starts_with("#") {
        return Ok(());
    }
    if let Some((name, digits)) = row.split_once(" of ") {
        return print_reading(rt, row, name, digits);
    }
    match value_of(row) {
        Some(value) => println!(rt; "{row}: {value}")?,
        None => return Err(anyhow::anyhow!("no such operator")),
    }
    Ok(())
}

fn run(rt: &(impl Env + Files + Print + AllocGlobal)) -> Result<()> {
    let Some(path) = env::args(rt)?.nth(1) else {
        return Err(anyhow::anyhow!("which file has the rows?"));
    };
    let text = fs::read_to_string(rt, path.as_str()).context("reading the rows")?;
    for row in text.lines() {
        print_row(rt, row).context(format_args!("{row:.60}"))?;
    }
    Ok(())
}

fn main(rt: HostRuntime) -> Result<()> {
    run(&rt)
}
