// Reads by the kind of the description.
ghost use Rattle.std.specs.Prelude.{◌≡◌, [], None, Some, length};
ghost use Rattle.std.specs.Option.{option_copied_mut};
ghost use Rattle.file_tree.specs.Files.{read_at};
ghost use Rattle.open_desc.specs.Descriptions.{description_of};
ghost use Rattle.open_desc.specs.Reading.{usable, read_file, read_kind, read_of, Reads, held_after};
ghost use Rattle.open_desc.specs.Writing.{size_of};

use crate::description::{Description, Kind};
use crate::descriptions::Descs;
use console::Console;
use file_tree::Tree;
use pipes::{Pipe, Pull};
use wx_types::Errno;

/// The right to read (WASI preview 1, `rights`, `fd_read`).
pub const RIGHT_READ: u64 = 2;

/// How many bytes a file has.
pub(crate) fn file_size(tree: &Tree, node: u32) -> u64
    ensures { result ≡ size_of tree.now node }
{
    match tree.stat(node) {
        Some(stat) => stat.size,
        None => 0,
    }
}

impl Descs {
    /// The description of an id, where it is open, no directory, and has the right.
    pub(crate) fn usable(&self, id: usize, right: u64) -> Result<Description, Errno>
        ensures { result ≡ usable right (description_of self.now id) }
    {
        let Some(&description) = self.get(id) else {
            return Err(Errno::Badf);
        };
        if let Kind::Dir(_) = description.kind {
            return Err(Errno::Isdir);
        }
        if description.rights & right == 0 {
            return Err(Errno::Notcapable);
        }
        Ok(description)
    }

    /// Reads a file from the offset of its description on.
    fn read_file(
        &mut self,
        id: usize,
        description: Description,
        tree: &Tree,
        node: u32,
        out: &mut [u8],
    ) -> Result<Pull, Errno>
        requires { description_of self.old id ≡ Some description }
        ensures { Reads (read_file self.old id description.offset [] None (read_at tree.now node description.offset (length out.old))) result out.old out.new self.new [] None }
    {
        // The bytes read end within the file, so the new offset fits.
        let _size = file_size(tree, node);
        let count = match tree.read_at(node, description.offset, out) {
            Ok(count) => count,
            Err(errno) => return Err(errno),
        };
        self.change(
            id,
            Description {
                offset: description.offset + count as u64,
                ..description
            },
        );
        Ok(Pull::Gave(count))
    }

    /// Reads what is no pipe that was lent.
    fn read_apart(
        &mut self,
        id: usize,
        description: Description,
        tree: &Tree,
        console: &mut Console,
        out: &mut [u8],
    ) -> Result<Pull, Errno>
        requires { description_of self.old id ≡ Some description }
        ensures { Reads (read_kind description.kind self.old id description.offset tree.now console.old None (length out.old)) result out.old out.new self.new console.new None }
    {
        match description.kind {
            Kind::Input => Ok(Pull::Gave(console.read(out))),
            Kind::File(node) => self.read_file(id, description, tree, node, out),
            Kind::Dir(_) => Err(Errno::Isdir),
            Kind::PipeRead(_) => Err(Errno::Badf),
            _ => Err(Errno::Notcapable),
        }
    }

    /// Reads with a pipe at hand.
    fn read_held(
        &mut self,
        id: usize,
        tree: &Tree,
        pipe: &mut Pipe,
        console: &mut Console,
        out: &mut [u8],
    ) -> Result<Pull, Errno>
        ensures { Reads (read_of self.old id tree.now console.old (Some pipe.old) (length out.old)) result out.old out.new self.new console.new (Some pipe.new) }
    {
        let description = match self.usable(id, RIGHT_READ) {
            Ok(description) => description,
            Err(errno) => return Err(errno),
        };
        if let Kind::PipeRead(number) = description.kind {
            let writer_left = self.end_left(number, true);
            return Ok(pipe.read(out, writer_left));
        }
        self.read_apart(id, description, tree, console, out)
    }

    /// Reads up to as many bytes as `out` has room for, by the kind of the description (POSIX.1-2017,
    /// `read`): the console's input gives its next bytes; a file its bytes from the offset on, which
    /// moves behind them; a pipe's reading end the first bytes of `pipe`, which must be the pipe that it
    /// names. The rest of `out` is unchanged. The refusals, in their order: `Badf` where the id is not
    /// open; `Isdir` for a directory; `Notcapable` without the right to read, and for what can't be read
    /// by its kind; `Badf` where no pipe was lent; what the tree refuses. A refusal moves nothing. No
    /// memory is taken.
    pub fn read(
        &mut self,
        id: usize,
        tree: &Tree,
        pipe: Option<&mut Pipe>,
        console: &mut Console,
        out: &mut [u8],
    ) -> Result<Pull, Errno>
        ensures { Reads (read_of self.old id tree.now console.old (option_copied_mut pipe.entry) (length out.old)) result out.old out.new self.new console.new (held_after pipe.exit) }
    {
        match pipe {
            Some(pipe) => self.read_held(id, tree, pipe, console, out),
            None => match self.usable(id, RIGHT_READ) {
                Ok(description) => self.read_apart(id, description, tree, console, out),
                Err(errno) => Err(errno),
            },
        }
    }
}
