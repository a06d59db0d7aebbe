// Writes by the kind of the description.
ghost use Rattle.std.specs.Prelude.{◌≡◌, None, Some};
ghost use Rattle.std.specs.Option.{option_copied_mut};
ghost use Rattle.file_tree.specs.Files.{write_at};
ghost use Rattle.open_desc.specs.Descriptions.{description_of};
ghost use Rattle.open_desc.specs.Reading.{held_after};
ghost use Rattle.open_desc.specs.Writing.{start_of, write_file, write_kind, write_of, unwritten, Writes};

use crate::description::{Description, Kind};
use crate::descriptions::Descs;
use crate::reading::file_size;
use file_tree::Tree;
use pipes::{Pipe, Push};
use wx_types::{Errno, Refusal};

/// The right to write (WASI preview 1, `rights`, `fd_write`).
pub const RIGHT_WRITE: u64 = 64;

/// Each write goes to the end of the file (WASI preview 1, `fdflags`, `append`).
pub const FLAG_APPEND: u16 = 1;

/// Where a write to a file begins.
fn start(tree: &Tree, node: u32, description: &Description) -> u64
    ensures { result ≡ start_of tree.now node description.now }
{
    if description.flags & FLAG_APPEND == 0 {
        description.offset
    } else {
        file_size(tree, node)
    }
}

impl Descs {
    /// Writes to a file at the offset of its description, or at its end.
    fn write_file(
        &mut self,
        id: usize,
        description: Description,
        tree: &mut Tree,
        node: u32,
        bytes: &[u8],
    ) -> Result<Push, Refusal>
        requires { description_of self.old id ≡ Some description }
        ensures { Writes (write_file self.old id (start_of tree.old node description) tree.old None bytes.now (write_at tree.old node (start_of tree.old node description) bytes.now)) (unwritten self.old tree.old None) result self.new tree.new None }
    {
        let start = start(tree, node, &description);
        if let Err(refusal) = tree.write_at(node, start, bytes) {
            return Err(refusal);
        }
        if !bytes.is_empty() {
            self.change(
                id,
                Description {
                    offset: start + bytes.len() as u64,
                    ..description
                },
            );
        }
        Ok(Push::Took(bytes.len()))
    }

    /// Writes to what is no pipe that was lent.
    fn write_apart(
        &mut self,
        id: usize,
        description: Description,
        tree: &mut Tree,
        bytes: &[u8],
    ) -> Result<Push, Refusal>
        requires { description_of self.old id ≡ Some description }
        ensures { Writes (write_kind description.kind self.old id description tree.old None bytes.now) (unwritten self.old tree.old None) result self.new tree.new None }
    {
        match description.kind {
            Kind::Output | Kind::Error => Ok(Push::Took(bytes.len())),
            Kind::File(node) => self.write_file(id, description, tree, node, bytes),
            Kind::Dir(_) => Err(Refusal::Errno(Errno::Isdir)),
            Kind::PipeWrite(_) => Err(Refusal::Errno(Errno::Badf)),
            _ => Err(Refusal::Errno(Errno::Notcapable)),
        }
    }

    /// Writes with a pipe at hand.
    fn write_held(
        &mut self,
        id: usize,
        tree: &mut Tree,
        pipe: &mut Pipe,
        bytes: &[u8],
    ) -> Result<Push, Refusal>
        ensures { Writes (write_of self.old id tree.old (Some pipe.old) bytes.now) (unwritten self.old tree.old (Some pipe.old)) result self.new tree.new (Some pipe.new) }
    {
        let description = match self.usable(id, RIGHT_WRITE) {
            Ok(description) => description,
            Err(errno) => return Err(Refusal::Errno(errno)),
        };
        if let Kind::PipeWrite(number) = description.kind {
            let reader_left = self.end_left(number, false);
            return Ok(pipe.write(bytes, reader_left));
        }
        self.write_apart(id, description, tree, bytes)
    }

    /// Writes `bytes` by the kind of the description (POSIX.1-2017, `write`). The console's output and
    /// errors take all. A file takes all from the offset on, or from its end where it is appended to, and
    /// the offset moves behind them; no bytes leave it. A pipe's writing end puts them into `pipe`, which
    /// must be the pipe that it names. The refusals, in their order: `Badf` where the id is not open;
    /// `Isdir` for a directory; `Notcapable` without the right to write, and for what can't be written by
    /// its kind; `Badf` where no pipe was lent; what the tree refuses. A refusal moves nothing, and so
    /// does out of memory, `Memory`.
    pub fn write(
        &mut self,
        id: usize,
        tree: &mut Tree,
        pipe: Option<&mut Pipe>,
        bytes: &[u8],
    ) -> Result<Push, Refusal>
        ensures { Writes (write_of self.old id tree.old (option_copied_mut pipe.entry) bytes.now) (unwritten self.old tree.old (option_copied_mut pipe.entry)) result self.new tree.new (held_after pipe.exit) }
    {
        match pipe {
            Some(pipe) => self.write_held(id, tree, pipe, bytes),
            None => match self.usable(id, RIGHT_WRITE) {
                Ok(description) => self.write_apart(id, description, tree, bytes),
                Err(errno) => Err(Refusal::Errno(errno)),
            },
        }
    }
}
