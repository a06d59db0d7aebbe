//! The suite of modules: for each case of the file that is named, a line that says what decoding,
//! validating and writing make of its bytes. The cases in `data/modules.txt` and the lines that are expected
//! of them come from `make_cases.py` beside this folder, which has the standard's tables and nothing of
//! this project's code.
#![tactic(auto)]

mod answer;
mod notation;

use answer::{Answer, answer_of};
use anyhow::{Context, Result};
use notation::{Each, Fragments, spell};
use std::alloc::Global;
use std::collections::BTreeMap;
use std::fmt::Write;
use std::rt::{Env, Files};
use std::{env, fs};

/// What comes of words, varied or not, whose bytes may be stated to be written as others.
fn judged(
    alloc: Global,
    fragments: &Fragments,
    words: &str,
    varied: Option<(Each, usize)>,
    stated: &Option<Vec<u8>>,
) -> Result<Answer> {
    let bytes = spell(alloc, fragments, words, varied)?.bytes;
    Ok(answer_of(alloc, bytes.as_slice(), stated.as_deref())?)
}

/// The answers to all variations, in their order: how many have the same answer, and which.
fn each_judged(
    alloc: Global,
    fragments: &Fragments,
    each: Each,
    words: &str,
    stated: &Option<Vec<u8>>,
) -> Result<String> {
    let whole = spell(alloc, fragments, words, None)?;
    let count = match each {
        Each::Front => whole.bracketed,
        Each::Number(_) => whole.numbers,
    };
    let mut answers: Vec<Answer> = Vec::new(alloc);
    for index in 0..count {
        answers.push(judged(alloc, fragments, words, Some((each, index)), stated)?)?;
    }
    let mut text = String::new(alloc);
    for alike in answers.chunk_by(|one, other| one == other) {
        if let Some(answer) = alike.first() {
            let mark = if text.is_empty() { "" } else { "; " };
            write!(text, "{mark}{} {answer}", alike.len())?;
        }
    }
    Ok(text)
}

/// What comes of a case `WORDS` or `WORDS -> WORDS`.
fn case_judged(alloc: Global, fragments: &Fragments, case: &str) -> Result<String> {
    let (words, stated) = match case.split_once(" -> ") {
        Some((words, written)) => (words, Some(spell(alloc, fragments, written, None)?.bytes)),
        None => (case, None),
    };
    if let Some((each, words)) = Each::parse(words) {
        return each_judged(alloc, fragments, each, words, &stated);
    }
    let found = judged(alloc, fragments, words, None, &stated)?;
    Ok(format!(in alloc; "{found}")?)
}

/// Names a fragment, or prints the line of a case. Empty lines and those that begin with `#` do nothing.
fn print_line(
    rt: &(impl Print + AllocGlobal),
    fragments: &mut Fragments,
    line: &str,
) -> Result<()> {
    let alloc = rt.alloc();
    if line.is_empty() || line.starts_with("#") {
        return Ok(());
    }
    if let Some((name, words)) = line.split_once(" = ") {
        let bytes = spell(alloc, fragments, words, None)?.bytes;
        fragments.insert(Vec::from_slice(alloc, name.as_bytes())?, bytes)?;
        return Ok(());
    }
    let Some((name, case)) = line.split_once(": ") else {
        return Err(anyhow::anyhow!("no case"));
    };
    let answers = case_judged(alloc, fragments, case)?;
    println!(rt; "{name}: {answers}")?;
    Ok(())
}

fn run(rt: &(impl Env + Files + Print + AllocGlobal)) -> Result<()> {
    let Some(path) = env::args(rt)?.nth(1) else {
        return Err(anyhow::anyhow!("which file has the cases?"));
    };
    let text = fs::read_to_string(rt, path.as_str()).context("reading the cases")?;
    let mut fragments = BTreeMap::new(rt.alloc());
    for line in text.lines() {
        print_line(rt, &mut fragments, line).context(format_args!("{line:.60}"))?;
    }
    Ok(())
}

fn main(rt: HostRuntime) -> Result<()> {
    run(&rt)
}
