// The files of the machine as a shelf: the trusted edge. It tells nothing of what the files hold.
ghost use Rattle.std.specs.Prelude.{◌≡◌, ◌≤◌, ℕ, List, vec_len, length, IfOk, IfErr, OnOk};
ghost use Rattle.wx_types.specs.Outside.{CountsError};

use std::alloc::Global;
use std::fs;
use std::io::{ErrorKind, Read, Write};
use std::rt::Files;
use wx_types::{Bytes, Failed, Shelf, ShelfError};

/// The files that the machine has, by their paths.
#[derive(Drop)]
pub struct FileShelf<'a, R: Files> {
    rt: &'a R,
    faults: u64,
}

impl<'a, R: Files> FileShelf<'a, R> {
    /// The files that this runtime reaches, with no fault counted.
    pub fn new(rt: &'a R) -> FileShelf<'a, R> {
        FileShelf { rt, faults: 0 }
    }
}

// all that comes from the reader, up to its end, in at most so many bytes
fn read_within<F: Read>(alloc: Global, file: &mut F, limit: u64) -> Result<Bytes, ShelfError>
    ensures { IfOk result (λ bytes. length bytes ≤ limit) }
{
    let mut items = Vec::new(alloc);
    let mut buffer = [0u8; 8192];
    for _ in 0..u64::MAX {
        match file.read(&mut buffer) {
            Ok(0) => return Ok(Bytes::from_vec(items)),
            Ok(n) => {
                if n as u64 > limit - items.len() as u64 {
                    return Err(ShelfError::TooLong);
                }
                if items.extend_from_slice(&buffer[..n]).is_err() {
                    return Err(ShelfError::Memory);
                }
            }
            Err(error) if error.kind() == ErrorKind::Interrupted => {}
            Err(_) => return Err(ShelfError::Failed),
        }
    }
    Err(ShelfError::Failed)
}

fn read_file<R: Files>(rt: &R, alloc: Global, name: &str, limit: u64) -> Result<Bytes, ShelfError>
    ensures { IfOk result (λ bytes. length bytes ≤ limit) }
{
    match fs::open(rt, name) {
        Ok(mut file) => read_within(alloc, &mut file, limit),
        Err(_) => Err(ShelfError::Failed),
    }
}

fn write_file<R: Files>(rt: &R, name: &str, bytes: &[u8]) -> Result<(), Failed> {
    match fs::create(rt, name) {
        Ok(mut file) => file.write_all(bytes).map_err(|_| Failed),
        Err(_) => Err(Failed),
    }
}

impl<R: Files> Shelf for FileShelf<'_, R> {
    ghost use Rattle.std.specs.Prelude.{None};

    ghost faults = { λ shelf. shelf.faults };

    ghost held = { λ _. None };

    fn read(&mut self, alloc: Global, name: &str, limit: u64) -> Result<Bytes, ShelfError> {
        let found = read_file(self.rt, alloc, name, limit);
        if let Err(ShelfError::Failed) = found {
            self.faults = self.faults.saturating_add(1);
        }
        found
    }

    fn write(&mut self, name: &str, bytes: &[u8]) -> Result<(), Failed> {
        let written = write_file(self.rt, name, bytes);
        if written.is_err() {
            self.faults = self.faults.saturating_add(1);
        }
        written
    }
}
