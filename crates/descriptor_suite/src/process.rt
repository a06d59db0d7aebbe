// One process with its files, its console and one pipe.

use console::Console;
use fd_table::FdTable;
use file_tree::Tree;
use open_desc::{Description, Descs, Kind};
use path_walk::split;
use pipes::{Pipe, Pull, Push};
use std::alloc::{AllocError, Global};
use wx_types::{Bytes, Errno, Refusal};

/// The number of the root directory.
const ROOT: u32 = 1;

/// A process, and all that its descriptors can refer to.
#[derive(Drop)]
pub struct Process {
    tree: Tree,
    descs: Descs,
    table: FdTable,
    pipe: Pipe,
    console: Console,
}

impl Process {
    /// A process without descriptors, and the input of its console.
    pub fn new(alloc: Global, input: &str) -> Result<Process, AllocError> {
        Ok(Process {
            tree: Tree::new(alloc)?,
            descs: Descs::new(alloc)?,
            table: FdTable::new(alloc)?,
            pipe: Pipe::new(alloc)?,
            console: Console::new(Bytes::new(alloc, input.as_bytes())?),
        })
    }

    /// The node of a file in the root, which is made where it is not there.
    pub fn file(&mut self, alloc: Global, name: &str) -> Result<u32, Refusal> {
        let parts = split(name.as_bytes())?;
        match self.tree.lookup(ROOT, &parts) {
            Ok(node) => Ok(node),
            Err(_) => self.tree.create(alloc, ROOT, &parts),
        }
    }

    /// How many descriptions are open.
    pub fn descriptions(&self) -> usize {
        self.descs.len()
    }

    /// The lowest free number.
    pub fn lowest(&self) -> Option<u32> {
        self.table.lowest()
    }

    /// Whether an end of the pipe is open.
    pub fn end_left(&self, writing: bool) -> bool {
        self.descs.end_left(0, writing)
    }

    /// Opens a description without a descriptor.
    pub fn open_alone(&mut self, description: Description) -> Result<usize, Refusal> {
        if !self.descs.has_number() {
            return Err(Refusal::Memory);
        }
        self.descs.open(description)
    }

    /// Opens a description, and puts it at the lowest free number.
    pub fn open(&mut self, description: Description) -> Result<u32, Refusal> {
        let id = self.open_alone(description)?;
        match self.table.put(id) {
            Ok(fd) => Ok(fd),
            Err(errno) => {
                let _last = self.descs.release(id);
                Err(Refusal::Errno(errno))
            }
        }
    }

    pub fn dup(&mut self, fd: u32) -> Result<u32, Errno> {
        let copy = self.table.dup(fd)?;
        if let Some(id) = self.table.get(fd) {
            if self.descs.can_share(id) {
                self.descs.share(id);
            }
        }
        Ok(copy)
    }

    pub fn close(&mut self, fd: u32) -> Result<Option<Kind>, Errno> {
        let id = self.table.close(fd)?;
        Ok(self.descs.release(id))
    }

    pub fn renumber(&mut self, from: u32, to: u32) -> Result<Option<Kind>, Errno> {
        match self.table.renumber(from, to)? {
            Some(id) => Ok(self.descs.release(id)),
            None => Ok(None),
        }
    }

    pub fn set_cloexec(&mut self, fd: u32, on: bool) -> Result<(), Errno> {
        self.table.set_cloexec(fd, on)
    }

    /// Closes what an exec closes, and gives how many that were.
    pub fn exec(&mut self) -> usize {
        let dropped = self.table.close_on_exec();
        for id in dropped.as_slice() {
            let _last = self.descs.release(*id);
        }
        dropped.as_slice().len()
    }

    pub fn seek(&mut self, fd: u32, delta: i64, whence: u32) -> Result<u64, Errno> {
        let Some(id) = self.table.get(fd) else {
            return Err(Errno::Badf);
        };
        let size = match self.descs.get(id) {
            Some(description) => match description.kind {
                Kind::File(node) => match self.tree.stat(node) {
                    Some(stat) => stat.size,
                    None => 0,
                },
                _ => 0,
            },
            None => 0,
        };
        self.descs.seek(id, delta, whence, size)
    }

    pub fn read(&mut self, fd: u32, out: &mut [u8]) -> Result<Pull, Errno> {
        let Some(id) = self.table.get(fd) else {
            return Err(Errno::Badf);
        };
        self.descs.read(id, &self.tree, Some(&mut self.pipe), &mut self.console, out)
    }

    pub fn write(&mut self, fd: u32, bytes: &[u8]) -> Result<Push, Refusal> {
        let Some(id) = self.table.get(fd) else {
            return Err(Refusal::Errno(Errno::Badf));
        };
        self.descs
            .write(id, &mut self.tree, Some(&mut self.pipe), bytes)
    }
}
