// The bytes of a memory, and what reads and writes them.
ghost use Rattle.std.specs.Prelude.{◌≡◌, ◌<◌, ◌≤◌, ◌+◌, ◌*◌, ◌^◌, ◌↔◌, ◌++◌, length, Ok, Err, IfOk, IfErr, OnOk, OnErr};
ghost use Rattle.std.specs.List.{All};
ghost use Rattle.int_ops.specs.Atomic.{IsAccessWidth};
ghost use Rattle.linear_memory.specs.LinearMemory.{zero_pages, is_within, range_of, grown, page_count};
ghost use Rattle.linear_memory.specs.Accesses.{loaded, stored, modified, exchanged, written};

use crate::fault::RangeFault;
use crate::storage::{read_number, write_number};
use int_ops::{AtomicOp, Cause, combine};
use std::alloc::{AllocError, Global};
use std::marker::Model;
use wx_types::Bytes;

/// The bytes of a page (WebAssembly Core 1.0, 4.2.8).
const PAGE: usize = 65_536;

/// The most pages of a memory of this host.
const MOST_PAGES: u32 = 256;

/// What `memory.grow` gives where a memory can't grow so far: -1 as an i32.
const NOT_GROWN: u32 = 4_294_967_295;

/// A memory of whole pages of 65,536 bytes, at most 256 of them. Contracts see it as its bytes, the
/// greatest number of pages that it may grow to, and whether it is shared.
#[derive(Debug, Drop)]
pub struct Memory {
    bytes: Vec<u8>,
    maximum: u32,
    shared: bool,
}

impl Model for Memory {
    ghost use Rattle.std.specs.Prelude.{◌≡◌, ◌≤◌, ◌%◌, length};
    ghost use Rattle.linear_memory.specs.LinearMemory.{LinearMemory};

    ghost Value = { LinearMemory };

    ghost view = { λ a. record { bytes = a.bytes.items; maximum = a.maximum; shared = a.shared } };

    ghost invariant = { λ a. (length a.bytes.items % 65536 ≡ 0) × (length a.bytes.items ≤ 16777216) };
}

impl Memory {
    /// A memory of `min` pages, all bytes 0, which may grow to `max` pages. `AllocError` is want of
    /// memory and nothing else.
    #[tactic(auto, unfolding(crate::specs::LinearMemory::zero_pages))]
    pub fn new(alloc: Global, min: u32, max: u32, shared: bool) -> Result<Memory, AllocError>
        requires { min ≤ 256 }
        ensures value { IfOk result (λ m. m ≡ record { bytes = zero_pages min; maximum = max; shared = shared }) }
        ensures len { IfOk result (λ m. length m.bytes ≡ 65536 * min) }
    {
        Ok(Memory {
            bytes: vec![in alloc; 0; min as usize * PAGE]?,
            maximum: max,
            shared,
        })
    }

    /// How many pages there are.
    pub fn size(&self) -> u32
        ensures value { result ≡ page_count self.now }
        ensures len { length self.now.bytes ≡ 65536 * result }
        ensures most { result ≤ 256 }
        ensures bytes { All (λ byte. byte < 256) self.now.bytes }
    {
        let bytes = self.bytes.as_slice();
        (bytes.len() / PAGE) as u32
    }

    /// Whether the threads of a process share it.
    pub fn shared(&self) -> bool
        ensures { result ≡ self.now.shared }
    {
        self.shared
    }

    /// Whether the `len` bytes at the address `at` lie within the memory. An empty range at its end does.
    #[inline(always)]
    pub fn holds(&self, at: u64, len: u64) -> bool
        ensures { result ≡ is_within self.now.bytes at len }
    {
        match at.checked_add(len) {
            Some(end) => end <= self.bytes.len() as u64,
            None => false,
        }
    }

    /// The number in the `width` bytes at the address `at`, the lowest byte first; `width` is 1, 2, 4 or 8.
    /// `OutOfBounds` comes exactly where they pass the end of the memory. The address doesn't wrap.
    #[inline(always)]
    pub fn load(&self, at: u64, width: u8) -> Result<u64, Cause>
        requires { IsAccessWidth width }
        ensures value { result ≡ loaded self.now at width }
        ensures fits { IfOk result (λ v. v < 2 ^ (8 * width)) }
    {
        if !self.holds(at, u64::from(width)) {
            return Err(Cause::OutOfBounds);
        }
        Ok(read_number(&self.bytes[at as usize..], width))
    }

    /// Puts the low `width` bytes of a number at the address `at`; `width` is 1, 2, 4 or 8. `OutOfBounds`
    /// comes exactly where they pass the end of the memory, which is unchanged then. No memory is taken.
    #[inline(always)]
    pub fn store(&mut self, at: u64, width: u8, value: u64) -> Result<(), Cause>
        requires { IsAccessWidth width }
        ensures ok { OnOk result (stored self.old at width value ≡ Ok self.new) }
        ensures err { IfErr result (λ cause. stored self.old at width value ≡ Err cause) }
        ensures unchanged { OnErr result (self.new ≡ self.old) }
        ensures len { length self.new.bytes ≡ length self.old.bytes }
    {
        if !self.holds(at, u64::from(width)) {
            return Err(Cause::OutOfBounds);
        }
        write_number(&mut self.bytes[at as usize..], width, value);
        Ok(())
    }

    /// An atomic read-modify-write of `width` bytes at the address `at`: it stores what `op` makes of the old
    /// number and the argument, both of that width, and gives the old number. `Misaligned` comes exactly
    /// where the address isn't a multiple of the width, and else `OutOfBounds` exactly where the bytes pass
    /// the end; the memory is unchanged then. No memory is taken.
    #[inline]
    pub fn rmw(&mut self, at: u64, width: u8, op: AtomicOp, arg: u64) -> Result<u64, Cause>
        requires { IsAccessWidth width }
        ensures ok { IfOk result (λ old. modified self.old at width op arg ≡ Ok (old, self.new)) }
        ensures err { IfErr result (λ cause. modified self.old at width op arg ≡ Err cause) }
        ensures unchanged { OnErr result (self.new ≡ self.old) }
        ensures fits { IfOk result (λ old. old < 2 ^ (8 * width)) }
        ensures len { length self.new.bytes ≡ length self.old.bytes }
    {
        if at % u64::from(width) != 0 {
            return Err(Cause::Misaligned);
        }
        let old = self.load(at, width)?;
        self.store(at, width, combine(op, old, arg, width))?;
        Ok(old)
    }

    /// An atomic compare and exchange of `width` bytes at the address `at`: it stores the low bytes of `new`
    /// where the old number equals `expected`, and gives the old number. `expected` isn't wrapped to the
    /// width, so where it has higher bytes nothing is stored. `Misaligned` comes exactly where the address
    /// isn't a multiple of the width, and else `OutOfBounds` exactly where the bytes pass the end; the memory
    /// is unchanged then. No memory is taken.
    #[inline]
    pub fn compare_exchange(
        &mut self,
        at: u64,
        width: u8,
        expected: u64,
        new: u64,
    ) -> Result<u64, Cause>
        requires { IsAccessWidth width }
        ensures ok { IfOk result (λ old. exchanged self.old at width expected new ≡ Ok (old, self.new)) }
        ensures err { IfErr result (λ cause. exchanged self.old at width expected new ≡ Err cause) }
        ensures unchanged { OnErr result (self.new ≡ self.old) }
        ensures fits { IfOk result (λ old. old < 2 ^ (8 * width)) }
        ensures len { length self.new.bytes ≡ length self.old.bytes }
    {
        if at % u64::from(width) != 0 {
            return Err(Cause::Misaligned);
        }
        let old = self.load(at, width)?;
        if old == expected {
            self.store(at, width, new)?;
        }
        Ok(old)
    }

    /// A copy of the `len` bytes from the address `at` on. `Outside` comes exactly where they pass the
    /// end of the memory: an empty range at the end is good. `Memory` is want of memory.
    pub fn bytes(&self, alloc: Global, at: u32, len: u32) -> Result<Bytes, RangeFault>
        ensures copy { IfOk result (λ b. b ≡ range_of self.now.bytes at len) }
        ensures within { OnOk result (at + len ≤ length self.now.bytes) }
        ensures outside { (result ≡ Err RangeFault.Outside) ↔ (length self.now.bytes < at + len) }
    {
        let (at, len) = (at as usize, len as usize);
        if self.bytes.len() < at + len {
            return Err(RangeFault::Outside);
        }
        Ok(Bytes::new(alloc, &self.bytes.as_slice()[at..at + len])?)
    }

    /// Puts a copy of the `len` bytes from the address `at` on behind the bytes in `to`. `Outside` comes
    /// exactly where they pass the end of the memory, and `Memory` is want of memory; `to` is unchanged then.
    pub fn append_bytes(&self, at: u32, len: u32, to: &mut Vec<u8>) -> Result<(), RangeFault>
        ensures copy { OnOk result (to.new.items ≡ to.old.items ++ range_of self.now.bytes at len) }
        ensures within { OnOk result (at + len ≤ length self.now.bytes) }
        ensures outside { (result ≡ Err RangeFault.Outside) ↔ (length self.now.bytes < at + len) }
        ensures unchanged { OnErr result (to.new.items ≡ to.old.items) }
    {
        let (at, len) = (at as usize, len as usize);
        if self.bytes.len() < at + len {
            return Err(RangeFault::Outside);
        }
        Ok(to.extend_from_slice(&self.bytes.as_slice()[at..at + len])?)
    }

    /// Puts these bytes at the address `at`. `OutOfBounds` comes exactly where they pass the end of the
    /// memory, which is unchanged then. No memory is taken.
    pub fn write_bytes(&mut self, at: u32, bytes: &[u8]) -> Result<(), Cause>
        ensures ok { OnOk result (written self.old at bytes.now ≡ Ok self.new) }
        ensures err { IfErr result (λ cause. written self.old at bytes.now ≡ Err cause) }
        ensures unchanged { OnErr result (self.new ≡ self.old) }
        ensures len { length self.new.bytes ≡ length self.old.bytes }
    {
        let at = at as usize;
        if self.bytes.len() < at + bytes.len() {
            return Err(Cause::OutOfBounds);
        }
        self.bytes.as_mut_slice()[at..at + bytes.len()].copy_from_slice(bytes);
        Ok(())
    }

    /// Grows the memory by so many pages of zeros and gives the old number of pages; or gives 4,294,967,295
    /// and leaves it, exactly where the pages would be more than its maximum or more than 256. `AllocError`
    /// is want of memory and nothing else; the memory is unchanged then.
    #[tactic(auto, unfolding(crate::specs::LinearMemory::zero_pages))]
    pub fn grow(&mut self, pages: u32) -> Result<u32, AllocError>
        ensures ok { IfOk result (λ old. grown self.old pages ≡ (old, self.new)) }
        ensures err { OnErr result (self.new ≡ self.old) }
    {
        let old = self.size();
        if u64::from(old) + u64::from(pages) > u64::from(self.maximum.min(MOST_PAGES)) {
            return Ok(NOT_GROWN);
        }
        self.bytes.resize((old + pages) as usize * PAGE, 0)?;
        Ok(old)
    }

    /// An equal memory, whose bytes are its own. `AllocError` is want of memory and nothing else.
    pub fn copy_whole(&self, alloc: Global) -> Result<Memory, AllocError>
        ensures { IfOk result (λ m. m ≡ self.now) }
    {
        Ok(Memory {
            bytes: Vec::from_slice(alloc, self.bytes.as_slice())?,
            maximum: self.maximum,
            shared: self.shared,
        })
    }
}
