//! The program: the words of its command line, the machine's files and its standard streams, handed to the top call.
#![tactic(auto)]

use std::alloc::{AllocError, Global};
use std::env;
use std::process::ExitCode;
use std::rt::Env;
use wasix_run::{FileShelf, StreamSink, StreamSource, wasix_serial};

/// The exit status where no memory is left for the words.
const NO_MEMORY: u8 = 71;

// The words behind the program's own name. Words that can't be read as text are no command, and no words are none either.
fn words<R: Env + AllocGlobal>(rt: &R) -> Result<Vec<String>, AllocError> {
    let mut words = Vec::new(rt.alloc());
    if let Ok(arguments) = env::args(rt) {
        for word in arguments.skip(1) {
            words.push(word)?;
        }
    }
    Ok(words)
}

fn main(rt: HostRuntime) -> ExitCode {
    let Ok(words) = words(&rt) else {
        return ExitCode::from(NO_MEMORY);
    };
    let mut shelf = FileShelf::new(&rt);
    let input = StreamSource::new(rt.stdin());
    let out = StreamSink::new(rt.stdout());
    let err = StreamSink::new(rt.stderr());
    let ended = wasix_serial(rt.alloc(), words.as_slice(), &mut shelf, input, out, err);
    ExitCode::from(ended.status)
}
