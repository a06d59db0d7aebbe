// The offset of a file, moved by a seek.
ghost use Rattle.std.specs.Prelude.{◌≡◌, pos, ◌+ℤ◌};
ghost use Rattle.open_desc.specs.Offsets.{base_of, offset_of, sought, seek_answer, after_seek};

use crate::description::{Description, Kind};
use crate::descriptions::Descs;
use wx_types::Errno;

/// What an offset is counted from, as a number.
fn base(whence: u32, offset: u64, size: u64) -> Option<u64>
    ensures { result ≡ base_of whence offset size }
{
    match whence {
        0 => Some(0),
        1 => Some(offset),
        2 => Some(size),
        _ => None,
    }
}

/// The sum, where it is an offset.
fn offset_at(base: u64, delta: i64) -> Result<u64, Errno>
    ensures { result ≡ offset_of (pos base +ℤ delta) }
{
    let offset = base as i128 + delta as i128;
    if offset < 0 || offset > i64::MAX as i128 {
        return Err(Errno::Inval);
    }
    Ok(offset as u64)
}

/// Where a seek leads.
fn seek_to(description: &Description, delta: i64, whence: u32, size: u64) -> Result<u64, Errno>
    ensures { result ≡ sought description.now.kind description.now.offset delta whence size }
{
    match description.kind {
        Kind::File(_) => match base(whence, description.offset, size) {
            Some(base) => offset_at(base, delta),
            None => Err(Errno::Inval),
        },
        Kind::Dir(_) => Err(Errno::Isdir),
        _ => Err(Errno::Spipe),
    }
}

impl Descs {
    /// Moves the offset of a file's description by `delta` from its start (`whence` 0), the offset (1)
    /// or its end (2), where `size` is how many bytes the file has, and gives the new offset (POSIX.1-2017,
    /// `lseek`). The refusals, in their order: `Badf` where the id is not open; `Isdir` for a directory;
    /// `Spipe` unless it is a file; `Inval` where `whence` is above 2, or the new offset below 0 or above
    /// 2^63 - 1. A refusal leaves the offset.
    pub fn seek(&mut self, id: usize, delta: i64, whence: u32, size: u64) -> Result<u64, Errno>
        ensures answer { result ≡ seek_answer self.old id delta whence size }
        ensures descriptions { self.new ≡ after_seek self.old id delta whence size }
    {
        let Some(&description) = self.get(id) else {
            return Err(Errno::Badf);
        };
        match seek_to(&description, delta, whence, size) {
            Ok(offset) => {
                self.change(
                    id,
                    Description {
                        offset,
                        ..description
                    },
                );
                Ok(offset)
            }
            Err(errno) => Err(errno),
        }
    }
}
