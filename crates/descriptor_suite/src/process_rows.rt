// Rows of a process, one call each; each goes on where the row before it left the process.

use crate::bytes::bytes_from;
use crate::process::Process;
use open_desc::{Description, Kind};
use pipes::{Pull, Push};
use std::alloc::{AllocError, Global};
use std::str::SplitWhitespace;
use wx_types::{Errno, Refusal};

fn error(alloc: Global, errno: Errno) -> Result<String, AllocError> {
    format!(in alloc; "error {}", errno.number())
}

fn refused(alloc: Global, refusal: Refusal) -> Result<String, AllocError> {
    match refusal {
        Refusal::Errno(errno) => error(alloc, errno),
        Refusal::Memory => format!(in alloc; "no memory"),
    }
}

fn kind_name(kind: Kind) -> &'static str {
    match kind {
        Kind::Input => "input",
        Kind::Output => "output",
        Kind::Error => "errors",
        Kind::File(_) => "file",
        Kind::Dir(_) => "directory",
        Kind::PipeRead(_) => "reading end",
        Kind::PipeWrite(_) => "writing end",
    }
}

/// What a close or a renumbering answers: whether it closed a description.
fn closed(alloc: Global, answer: Result<Option<Kind>, Errno>) -> Result<String, AllocError> {
    match answer {
        Ok(Some(kind)) => format!(in alloc; "closes {}", kind_name(kind)),
        Ok(None) => format!(in alloc; "closes nothing"),
        Err(errno) => error(alloc, errno),
    }
}

fn number(alloc: Global, answer: Result<u32, Errno>) -> Result<String, AllocError> {
    match answer {
        Ok(fd) => format!(in alloc; "{fd}"),
        Err(errno) => error(alloc, errno),
    }
}

fn pushed(alloc: Global, answer: Result<Push, Refusal>) -> Result<String, AllocError> {
    match answer {
        Ok(Push::Took(count)) => format!(in alloc; "took {count}"),
        Ok(Push::WouldWait) => format!(in alloc; "waits"),
        Ok(Push::NoReader) => format!(in alloc; "no reader"),
        Err(refusal) => refused(alloc, refusal),
    }
}

/// A read of so many bytes; up to 40 bytes are shown as text.
fn read(alloc: Global, process: &mut Process, fd: u32, count: usize) -> Result<String, AllocError> {
    let mut out = vec![in alloc; 0u8; count]?;
    match process.read(fd, out.as_mut_slice()) {
        Ok(Pull::Gave(given)) => {
            let text = match out.as_slice().get(..given) {
                Some(bytes) if given <= 40 => std::str::from_utf8(bytes).unwrap_or("?"),
                _ => "..",
            };
            format!(in alloc; "gave {given} '{text}'")
        }
        Ok(Pull::WouldWait) => format!(in alloc; "waits"),
        Err(errno) => error(alloc, errno),
    }
}

/// The kind that a word names, a file's node among them.
fn kind_of(alloc: Global, process: &mut Process, word: &str) -> Result<Option<Kind>, Refusal> {
    match word {
        "input" => Ok(Some(Kind::Input)),
        "output" => Ok(Some(Kind::Output)),
        "errors" => Ok(Some(Kind::Error)),
        "root" => Ok(Some(Kind::Dir(1))),
        "reading" => Ok(Some(Kind::PipeRead(0))),
        "writing" => Ok(Some(Kind::PipeWrite(0))),
        name => Ok(Some(Kind::File(process.file(alloc, name)?))),
    }
}

/// Opens so many descriptions of one kind, until one is refused.
fn open_many(
    alloc: Global,
    process: &mut Process,
    description: Description,
    count: u32,
) -> Result<String, AllocError> {
    for opened in 0..count {
        if let Err(refusal) = process.open_alone(description) {
            let text = refused(alloc, refusal)?;
            return format!(in alloc; "{opened}, then {text}");
        }
    }
    format!(in alloc; "{count}")
}

fn number_word(words: &mut SplitWhitespace) -> Option<u32> {
    words.next()?.parse::<u32>().ok()
}

/// A description that a row names: its kind, its flags and its rights.
fn description(
    alloc: Global,
    process: &mut Process,
    words: &mut SplitWhitespace,
) -> Result<Option<Description>, Refusal> {
    let Some(word) = words.next() else {
        return Ok(None);
    };
    let Some(kind) = kind_of(alloc, process, word)? else {
        return Ok(None);
    };
    let (flags, rights) = match (number_word(words), number_word(words)) {
        (Some(flags), Some(rights)) => (flags, rights),
        _ => return Ok(None),
    };
    Ok(Some(Description {
        kind,
        offset: 0,
        flags: (flags % 32) as u16,
        rights: u64::from(rights),
        root: false,
    }))
}

fn open(
    alloc: Global,
    process: &mut Process,
    words: &mut SplitWhitespace,
    many: bool,
) -> Result<Option<String>, AllocError> {
    let description = match description(alloc, process, words) {
        Ok(Some(description)) => description,
        Ok(None) => return Ok(None),
        Err(refusal) => return Ok(Some(refused(alloc, refusal)?)),
    };
    if many {
        let Some(count) = number_word(words) else {
            return Ok(None);
        };
        return Ok(Some(open_many(alloc, process, description, count)?));
    }
    match process.open(description) {
        Ok(fd) => Ok(Some(format!(in alloc; "{fd}")?)),
        Err(refusal) => Ok(Some(refused(alloc, refusal)?)),
    }
}

/// A call with one number before what else it takes.
fn call(
    alloc: Global,
    process: &mut Process,
    verb: &str,
    first: u32,
    words: &mut SplitWhitespace,
) -> Result<Option<String>, AllocError> {
    let answer = match verb {
        "dup" => number(alloc, process.dup(first))?,
        "close" => closed(alloc, process.close(first))?,
        "renumber" => match number_word(words) {
            Some(to) => closed(alloc, process.renumber(first, to))?,
            None => return Ok(None),
        },
        "mark" => match process.set_cloexec(first, words.next() == Some("on")) {
            Ok(()) => format!(in alloc; "done")?,
            Err(errno) => error(alloc, errno)?,
        },
        "seek" => {
            let delta = words.next().and_then(|word| word.parse::<i64>().ok());
            match (delta, number_word(words)) {
                (Some(delta), Some(whence)) => match process.seek(first, delta, whence) {
                    Ok(offset) => format!(in alloc; "{offset}")?,
                    Err(errno) => error(alloc, errno)?,
                },
                _ => return Ok(None),
            }
        }
        "read" => match number_word(words) {
            Some(count) => read(alloc, process, first, count as usize)?,
            None => return Ok(None),
        },
        "write" => {
            let text = words.next().unwrap_or("");
            pushed(alloc, process.write(first, text.as_bytes()))?
        }
        "fill" => match number_word(words) {
            Some(count) => {
                let bytes = bytes_from(alloc, 97, count as usize)?;
                pushed(alloc, process.write(first, bytes.as_slice()))?
            }
            None => return Ok(None),
        },
        _ => return Ok(None),
    };
    Ok(Some(answer))
}

/// What a process answers to a row.
pub fn answer(
    alloc: Global,
    process: &mut Process,
    verb: &str,
    words: &mut SplitWhitespace,
) -> Result<Option<String>, AllocError> {
    match verb {
        "new" => {
            *process = Process::new(alloc, words.next().unwrap_or(""))?;
            Ok(Some(format!(in alloc; "done")?))
        }
        "open" => open(alloc, process, words, false),
        "many" => open(alloc, process, words, true),
        "exec" => Ok(Some(format!(in alloc; "closes {}", process.exec())?)),
        "count" => Ok(Some(format!(in alloc; "{}", process.descriptions())?)),
        "ends" => Ok(Some(format!(in alloc;
            "reading {}, writing {}",
            process.end_left(false),
            process.end_left(true)
        )?)),
        "lowest" => match process.lowest() {
            Some(fd) => Ok(Some(format!(in alloc; "{fd}")?)),
            None => Ok(Some(format!(in alloc; "none")?)),
        },
        verb => match number_word(words) {
            Some(first) => call(alloc, process, verb, first, words),
            None => Ok(None),
        },
    }
}
