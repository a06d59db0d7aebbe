// Descriptors in 128 places, with a word that tells which are open.
ghost use Rattle.std.specs.Prelude.{◌≡◌, ◌<◌, ◌↔◌, None, IsSome, IfSome, IfOk, IsOkUnless};
ghost use Rattle.std.specs.FinMap.{empty, get as entry_at, insert, remove};
ghost use Rattle.fd_table.specs.Table.{id_at, lowest_free, put_answer, after_put, dup_answer, after_dup, renumber_answer, after_renumber, close_answer, after_close, after_mark, marked_id, dropped_ids, after_exec};

use crate::dropped::Dropped;
use std::alloc::{AllocError, Global};
use std::marker::Model;
use wx_types::Errno;

/// How many descriptors a process has at most.
pub const DESCRIPTORS: u32 = 128;

/// What a number stands for.
#[derive(Clone, Copy, Debug, PartialEq, Eq)]
pub struct Descriptor {
    /// The id of the open description.
    pub id: usize,
    /// Whether an exec closes the number.
    pub cloexec: bool,
}

/// The descriptors of a process. Contracts see it as the finite map from the numbers that are open, each
/// below 128, to the open description and the close-on-exec mark.
#[derive(Debug, Drop)]
pub struct FdTable {
    places: Vec<Option<Descriptor>>,
    // bit n is 1 where the place n is not empty
    taken: u128,
}

impl Model for FdTable {
    ghost use Rattle.fd_table.specs.Table.{Table, table_code, HasWord};

    ghost Value = { Table };

    ghost coded = { table_code };

    ghost use Rattle.fd_table.specs.Places.{by_place};

    ghost view = { λ table. by_place table.places.items };

    ghost invariant = { λ table. HasWord table.places.items table.taken };
}

impl FdTable {
    /// An empty table, with memory for all descriptors. `AllocError` is out of memory.
    pub fn new(alloc: Global) -> Result<FdTable, AllocError>
        ensures { IfOk result (λ table. table ≡ empty) }
    {
        Ok(FdTable {
            places: Vec::from_slice(alloc, &[None; DESCRIPTORS as usize])?,
            taken: 0,
        })
    }

    /// The descriptor of a number, `None` where it is not open.
    pub fn entry(&self, fd: u32) -> Option<Descriptor>
        ensures value { result ≡ entry_at self.now fd }
        ensures within { IsSome result → fd < 128 }
    {
        if fd < DESCRIPTORS {
            self.places[fd as usize]
        } else {
            None
        }
    }

    /// Puts a descriptor at a number.
    fn set(&mut self, fd: u32, descriptor: Descriptor)
        requires { fd < 128 }
        ensures { self.new ≡ insert self.old fd descriptor }
    {
        self.places[fd as usize] = Some(descriptor);
        self.taken |= 1 << fd;
    }

    /// Leaves a number free.
    fn clear(&mut self, fd: u32)
        requires { fd < 128 }
        ensures { self.new ≡ remove self.old fd }
    {
        self.places[fd as usize] = None;
        self.taken &= !(1 << fd);
    }

    /// The lowest number that is not open, `None` where all 128 are.
    pub fn lowest(&self) -> Option<u32>
        ensures value { result ≡ lowest_free self.now }
        ensures within { IfSome result (λ fd. fd < 128) }
    {
        if self.taken == u128::MAX {
            return None;
        }
        Some(self.taken.trailing_ones())
    }

    /// The open description of a number, `None` where it is not open.
    pub fn get(&self, fd: u32) -> Option<usize>
        ensures value { result ≡ id_at self.now fd }
        ensures within { IsSome result → fd < 128 }
    {
        match self.entry(fd) {
            Some(descriptor) => Some(descriptor.id),
            None => None,
        }
    }

    /// Gives the open description the lowest free number, without a mark. `Mfile` comes exactly where all
    /// 128 numbers are open.
    pub fn put(&mut self, id: usize) -> Result<u32, Errno>
        ensures answer { result ≡ put_answer self.old }
        ensures table { self.new ≡ after_put self.old id }
    {
        let Some(fd) = self.lowest() else {
            return Err(Errno::Mfile);
        };
        self.set(fd, Descriptor { id, cloexec: false });
        Ok(fd)
    }

    /// Gives the open description of `fd` the lowest free number too, without a mark (POSIX.1-2017,
    /// `dup`). `Badf` comes exactly where `fd` is not open, and `Mfile` where all 128 numbers are.
    pub fn dup(&mut self, fd: u32) -> Result<u32, Errno>
        ensures answer { result ≡ dup_answer self.old fd }
        ensures table { self.new ≡ after_dup self.old fd }
    {
        match self.get(fd) {
            Some(id) => self.put(id),
            None => Err(Errno::Badf),
        }
    }

    /// Moves the entry of `from` to `to` with its mark, and hands back the open description that `to` had
    /// (WASI preview 1, `fd_renumber`). Equal numbers leave all as it is. `Badf` comes exactly where
    /// `from` is not open, or `to` is 128 or more.
    pub fn renumber(&mut self, from: u32, to: u32) -> Result<Option<usize>, Errno>
        ensures answer { result ≡ renumber_answer self.old from to }
        ensures table { self.new ≡ after_renumber self.old from to }
    {
        let Some(descriptor) = self.entry(from) else {
            return Err(Errno::Badf);
        };
        if to >= DESCRIPTORS {
            return Err(Errno::Badf);
        }
        if from == to {
            return Ok(None);
        }
        let displaced = self.get(to);
        self.set(to, descriptor);
        self.clear(from);
        Ok(displaced)
    }

    /// Closes a number, and hands back its open description (POSIX.1-2017, `close`). `Badf` comes exactly
    /// where it is not open.
    pub fn close(&mut self, fd: u32) -> Result<usize, Errno>
        ensures answer { result ≡ close_answer self.old fd }
        ensures table { self.new ≡ after_close self.old fd }
    {
        let Some(id) = self.get(fd) else {
            return Err(Errno::Badf);
        };
        self.clear(fd);
        Ok(id)
    }

    /// Sets or clears the close-on-exec mark of a number. `Badf` comes exactly where it is not open.
    pub fn set_cloexec(&mut self, fd: u32, on: bool) -> Result<(), Errno>
        ensures badf { (result ≡ Err Errno.Badf) ↔ (entry_at self.old fd ≡ None) }
        ensures only { IsOkUnless result Errno.Badf }
        ensures table { self.new ≡ after_mark self.old fd on }
    {
        let Some(descriptor) = self.entry(fd) else {
            return Err(Errno::Badf);
        };
        let id = descriptor.id;
        self.set(fd, Descriptor { id, cloexec: on });
        Ok(())
    }

    /// The table of a child: the same numbers, with their marks (POSIX.1-2017, `fork`). `AllocError` is
    /// out of memory.
    pub fn copy_for_fork(&self, alloc: Global) -> Result<FdTable, AllocError>
        ensures { IfOk result (λ table. table ≡ self.now) }
    {
        Ok(FdTable {
            places: Vec::from_slice(alloc, self.places.as_slice())?,
            taken: self.taken,
        })
    }

    /// The open description of a number that has a mark.
    fn marked(&self, fd: u32) -> Option<usize>
        ensures { result ≡ marked_id self.now fd }
    {
        match self.entry(fd) {
            Some(descriptor) if descriptor.cloexec => Some(descriptor.id),
            _ => None,
        }
    }

    /// Closes each number that has a mark, and hands back their open descriptions by rising number
    /// (POSIX.1-2017, `exec`).
    pub fn close_on_exec(&mut self) -> Dropped
        ensures dropped { result ≡ dropped_ids self.old }
        ensures table { self.new ≡ after_exec self.old }
    {
        let mut dropped = Dropped::new();
        for fd in 0..DESCRIPTORS {
            if let Some(id) = self.marked(fd) {
                self.clear(fd);
                dropped.push(id);
            }
        }
        dropped
    }
}
