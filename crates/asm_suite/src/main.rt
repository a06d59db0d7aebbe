//! The suite of the assembler: for each group of cases of the file that is named, a line that says how many texts have the module,
//! and how many the fault, that is stated; and one for each text that has another. The cases in `data/` and the lines that are
//! expected of them come from `make_cases.py` beside this folder, which has the modules from `wat2wasm` and the faults from the
//! rules of the format, and nothing of this project's code.
#![tactic(auto)]

mod notation;

use anyhow::Result;
use notation::spelled;
use std::alloc::{AllocError, Global};
use std::rt::{Env, Files};
use std::{env, fs};
use wasm_encode::encode;
use wat_asm::{AsmFault, AsmKind, assemble};
use wx_types::Bytes;

/// The most bytes of a text.
const TEXT_LIMIT: usize = 4_194_304;

/// What comes of a text.
#[derive(Debug, Drop)]
enum Found {
    /// The bytes of its module.
    Module(Bytes),
    Fault(&'static str, u32),
    TooLong,
    Memory,
}

fn kind_name(kind: AsmKind) -> &'static str {
    match kind {
        AsmKind::Token => "token",
        AsmKind::Syntax => "syntax",
        AsmKind::Name => "name",
    }
}

fn come_of(alloc: Global, text: &[u8]) -> Result<Found, AllocError> {
    if text.len() > TEXT_LIMIT {
        return Ok(Found::TooLong);
    }
    match assemble(alloc, text) {
        Ok(module) => Ok(Found::Module(encode(alloc, &module)?)),
        Err(AsmFault::Text { line, kind }) => Ok(Found::Fault(kind_name(kind), line)),
        Err(AsmFault::Memory) => Ok(Found::Memory),
    }
}

/// What is stated of a text.
#[derive(Debug, Drop)]
enum Stated<'a> {
    Module(Vec<u8>),
    Fault(&'a str, u32),
}

// the file `NAME` of `@NAME`, or the bytes that are spelled
fn bytes_of(rt: &(impl Files + AllocGlobal), text: &str) -> Result<Vec<u8>> {
    match text.strip_prefix("@") {
        Some(path) => Ok(fs::read(rt, path)?),
        None => spelled(rt.alloc(), text),
    }
}

fn read_stated<'a>(rt: &(impl Files + AllocGlobal), text: &'a str) -> Result<Stated<'a>> {
    if let Some((kind, line)) = text.split_once(' ') {
        if !text.starts_with('0') {
            return Ok(Stated::Fault(kind, line.parse::<u32>()?));
        }
    }
    let bytes = bytes_of(rt, text)?;
    if text.starts_with('@') {
        return Ok(Stated::Module(bytes));
    }
    Ok(Stated::Module(hex::decode(rt.alloc(), bytes.as_slice())?))
}

/// How many texts of a group are as stated.
#[derive(Clone, Copy)]
struct Tally<'a> {
    group: &'a str,
    modules: u32,
    refusals: u32,
}

impl<'a> Tally<'a> {
    fn new(group: &'a str) -> Tally<'a> {
        Tally {
            group,
            modules: 0,
            refusals: 0,
        }
    }

    fn print(&self, rt: &impl Print) -> Result<()> {
        println!(rt;
            "{}: {} modules, {} refusals",
            self.group, self.modules, self.refusals
        )?;
        Ok(())
    }
}

fn is_as_stated(found: &Found, stated: &Stated<'_>) -> bool {
    match (found, stated) {
        (Found::Module(bytes), Stated::Module(wanted)) => bytes.as_slice() == wanted.as_slice(),
        (Found::Fault(kind, line), Stated::Fault(wanted, place)) => {
            *kind == *wanted && *line == *place
        }
        _ => false,
    }
}

// a line for a text that has another module or fault
fn print_other(
    rt: &(impl Print + AllocGlobal),
    group: &str,
    text: &str,
    found: &Found,
) -> Result<()> {
    let text = text.get(0..200).unwrap_or(text);
    match found {
        Found::Module(bytes) => {
            if bytes.len() <= 200 {
                let digits = hex::encode(rt.alloc(), bytes.as_slice())?;
                println!(rt; "{group}: {digits} of {text}")?;
            } else {
                println!(rt; "{group}: {} bytes of {text}", bytes.len())?;
            }
        }
        Found::Fault(kind, line) => println!(rt; "{group}: {kind} {line} of {text}")?,
        Found::TooLong => println!(rt; "{group}: too long: {text}")?,
        Found::Memory => println!(rt; "{group}: out of memory of {text}")?,
    }
    Ok(())
}

// a case, as a line `GROUP`, what is stated and the text, with tabs between them
fn judge<'a>(
    rt: &(impl Files + Print + AllocGlobal),
    line: &'a str,
    before: Option<Tally<'a>>,
) -> Result<Tally<'a>> {
    let Some((group, rest)) = line.split_once('\t') else {
        return Err(anyhow::anyhow!("no case"));
    };
    let Some((wanted, text)) = rest.split_once('\t') else {
        return Err(anyhow::anyhow!("no text"));
    };
    let mut tally = match before {
        Some(tally) if tally.group == group => tally,
        Some(tally) => {
            tally.print(rt)?;
            Tally::new(group)
        }
        None => Tally::new(group),
    };
    let wanted = read_stated(rt, wanted)?;
    let bytes = bytes_of(rt, text)?;
    let found = come_of(rt.alloc(), bytes.as_slice())?;
    if !is_as_stated(&found, &wanted) {
        print_other(rt, group, text, &found)?;
        return Ok(tally);
    }
    match wanted {
        Stated::Module(_) => tally.modules = tally.modules.saturating_add(1),
        Stated::Fault(_, _) => tally.refusals = tally.refusals.saturating_add(1),
    }
    Ok(tally)
}

fn run(rt: &(impl Env + Files + Print + AllocGlobal)) -> Result<()> {
    let Some(path) = env::args(rt)?.nth(1) else {
        return Err(anyhow::anyhow!("which file has the cases?"));
    };
    let text = fs::read_to_string(rt, path.as_str())?;
    let mut tally = None;
    for line in text.lines() {
        tally = Some(judge(rt, line, tally)?);
    }
    if let Some(tally) = tally {
        tally.print(rt)?;
    }
    Ok(())
}

fn main(rt: HostRuntime) -> Result<()> {
    run(&rt)
}
