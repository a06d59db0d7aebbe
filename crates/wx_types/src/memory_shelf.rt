// A shelf in memory.
ghost use Rattle.std.specs.Prelude.{◌≡◌, ◌≢◌, ◌++◌, ◌∷◌, ◌+◌, ◌-◌, ◌<◌, ◌≤◌, ◌⊎◌, ◌↔◌, [], List, ℕ, Some, None, All, IsErr, IsErrOf, IsSomeAnd, IfOk, IfErr, OnOk, OnErr, length, vec_len};
ghost use Rattle.std.specs.Option.{option_copied};
ghost use Rattle.std.specs.Vec.{vec_capacity};
ghost use Rattle.wx_types.specs.Files.{file_named};
ghost use Rattle.wx_types.specs.MemoryObjects.{NextFails, ShelfFails, after_call, after_fault, after_write, after_answer, after_error};
ghost use Rattle.wx_types.specs.ShelfLog.{IsWithin, files_at};

use super::byte_list::Bytes;
use super::errors::{Failed, ShelfError};
use super::memory_plan::CallPlan;
use super::outside::Shelf;
use std::alloc::{AllocError, Global};
use std::marker::Model;

// Where a file stands in the log: its name from `start` to `middle`, its content from there to `end`.
#[derive(Clone, Copy, Debug)]
struct Spot {
    start: usize,
    middle: usize,
    end: usize,
}

/// A shelf in memory. It is for tests: it has room for so much that is written to it, and fails at the
/// calls that are named to it.
#[derive(Debug, Drop)]
pub struct MemShelf {
    log: Vec<u8>,
    spots: Vec<Spot>,
    room: usize,
    writes: usize,
    plan: CallPlan,
}

impl Model for MemShelf {
    ghost use Rattle.wx_types.specs.MemoryObjects.{ShelfState};
    ghost use Rattle.std.specs.Prelude.{◌≤◌, ◌+◌, All, length, vec_len};
    ghost use Rattle.std.specs.Vec.{vec_capacity};
    ghost use Rattle.wx_types.specs.ShelfLog.{IsWithin, files_at};

    ghost Value = { ShelfState };

    ghost view = { λ a. record { files = files_at a.log.items a.spots.items; room = a.room; writes = a.writes; plan = a.plan } };

    ghost invariant = { λ a. All (IsWithin (length a.log.items)) a.spots.items × (vec_len a.log + a.room ≤ vec_capacity a.log) × (vec_len a.spots + a.writes ≤ vec_capacity a.spots) };
}

// Adds a file behind the others. Both lists have room for it.
fn append(log: &mut Vec<u8>, spots: &mut Vec<Spot>, name: &[u8], content: &[u8])
    requires log_room { vec_len log.old + (length name.now + length content.now) ≤ vec_capacity log.old }
    requires spots_room { vec_len spots.old < vec_capacity spots.old }
    requires within { All (IsWithin (length log.old.items)) spots.old.items }
    ensures files { files_at log.new.items spots.new.items ≡ files_at log.old.items spots.old.items ++ (name.now, content.now) ∷ [] }
    ensures within { All (IsWithin (length log.new.items)) spots.new.items }
    ensures log_len { vec_len log.new ≡ vec_len log.old + (length name.now + length content.now) }
    ensures spots_len { vec_len spots.new ≡ vec_len spots.old + 1 }
    ensures log_capacity { vec_capacity log.old ≤ vec_capacity log.new }
    ensures spots_capacity { vec_capacity spots.old ≤ vec_capacity spots.new }
{
    let start = log.len();
    let middle = start + name.len();
    let end = middle + content.len();
    if log.extend_from_slice(name).is_err() {
        unreachable!();
    }
    if log.extend_from_slice(content).is_err() {
        unreachable!();
    }
    let spot = Spot { start, middle, end };
    if spots.push(spot).is_err() {
        unreachable!();
    }
}

// The content of the newest file of this name.
fn newest<'a>(log: &'a [u8], spots: &[Spot], name: &[u8]) -> Option<&'a [u8]>
    requires { All (IsWithin (length log.now)) spots.now }
    ensures { option_copied result ≡ file_named (files_at log.now spots.now) name.now }
{
    let mut found = None;
    for spot in spots {
        if &log[spot.start..spot.middle] == name {
            found = Some(&log[spot.middle..spot.end]);
        }
    }
    found
}

// A copy of the content of the newest file of this name.
fn copy_newest(
    alloc: Global,
    log: &[u8],
    spots: &[Spot],
    name: &[u8],
    limit: u64,
) -> Result<Bytes, ShelfError>
    requires { All (IsWithin (length log.now)) spots.now }
    ensures failed { IsErrOf result ShelfError.Failed ↔ (file_named (files_at log.now spots.now) name.now ≡ None) }
    ensures too_long { IsErrOf result ShelfError.TooLong ↔ IsSomeAnd (file_named (files_at log.now spots.now) name.now) (λ bytes. limit < length bytes) }
    ensures content { IfOk result (λ bytes. file_named (files_at log.now spots.now) name.now ≡ Some bytes) }
{
    match newest(log, spots, name) {
        None => Err(ShelfError::Failed),
        Some(content) => {
            if content.len() as u64 > limit {
                return Err(ShelfError::TooLong);
            }
            Ok(Bytes::new(alloc, content)?)
        }
    }
}

impl MemShelf {
    /// An empty shelf, to which at most `room` bytes of names and contents can be written in at most
    /// `room` writes, and which fails at the calls whose numbers, from 1, are in `fails`. Reads and
    /// writes are counted together. `AllocError` is want of memory and nothing else.
    pub fn new(alloc: Global, room: usize, fails: Vec<u64>) -> Result<MemShelf, AllocError>
        ensures { IfOk result (λ shelf. shelf ≡ record { files = []; room = room; writes = room; plan = record { fails = fails.items; calls = 0; faults = 0 } }) }
    {
        Ok(MemShelf {
            log: Vec::with_capacity(alloc, room)?,
            spots: Vec::with_capacity(alloc, room)?,
            room,
            writes: room,
            plan: CallPlan::new(fails),
        })
    }

    /// Puts a file on the shelf, in place of what its name had. It is no call that `fails` counts, and
    /// takes nothing of the room. `AllocError` is want of memory and nothing else; the shelf is
    /// unchanged then.
    pub fn put(&mut self, name: &str, bytes: &[u8]) -> Result<(), AllocError>
        ensures ok { OnOk result (self.new ≡ record self.old { files = self.old.files ++ (name.now, bytes.now) ∷ [] }) }
        ensures err { OnErr result (self.new ≡ self.old) }
    {
        let size = name.len() + bytes.len();
        let Some(more) = size.checked_add(self.room) else {
            return Err(AllocError);
        };
        self.log.reserve(more)?;
        self.spots.reserve(self.writes + 1)?;
        append(&mut self.log, &mut self.spots, name.as_bytes(), bytes);
        Ok(())
    }
}

impl Shelf for MemShelf {
    ghost use Rattle.std.specs.Prelude.{Some};

    ghost faults = { λ shelf. shelf.plan.faults };

    ghost held = { λ shelf. Some shelf.files };

    /// The newest content of the name. It fails exactly where the call is one that is to fail, and
    /// where the shelf has no file of that name.
    fn read(&mut self, alloc: Global, name: &str, limit: u64) -> Result<Bytes, ShelfError>
        ensures fails { IsErrOf result ShelfError.Failed ↔ (NextFails self.old.plan ⊎ (file_named self.old.files name.now ≡ None)) }
        ensures too_long { IsErrOf result ShelfError.TooLong → IsSomeAnd (file_named self.old.files name.now) (λ bytes. limit < length bytes) }
        ensures within { IfOk result (λ bytes. length bytes ≤ limit) }
        ensures content { IfOk result (λ bytes. file_named self.old.files name.now ≡ Some bytes) }
        ensures never_falls { self.old.plan.faults ≤ self.new.plan.faults }
        ensures ok { OnOk result (self.new ≡ after_answer self.old) }
        ensures err { IfErr result (λ e. self.new ≡ after_error e self.old) }
    {
        if self.plan.next_fails() {
            self.plan.count_fault();
            return Err(ShelfError::Failed);
        }
        let log = self.log.as_slice();
        match copy_newest(alloc, log, self.spots.as_slice(), name.as_bytes(), limit) {
            Err(ShelfError::Failed) => {
                self.plan.count_fault();
                Err(ShelfError::Failed)
            }
            answer => {
                self.plan.count_call();
                answer
            }
        }
    }

    /// Writes the file. It fails exactly where the call is one that is to fail, and where name and bytes
    /// pass the room or the number of writes that are left.
    fn write(&mut self, name: &str, bytes: &[u8]) -> Result<(), Failed>
        ensures fails { IsErr result ↔ ShelfFails self.old name.now bytes.now }
        ensures ok { OnOk result (self.new ≡ after_write self.old name.now bytes.now) }
        ensures written { OnOk result (file_named self.new.files name.now ≡ Some bytes.now) }
        ensures others { (other : List ℕ) → other ≢ name.now → file_named self.new.files other ≡ file_named self.old.files other }
        ensures err { OnErr result (self.new ≡ record self.old { plan = after_fault self.old.plan }) }
        ensures never_falls { self.old.plan.faults ≤ self.new.plan.faults }
    {
        let size = name.len() + bytes.len();
        if self.plan.next_fails() || size > self.room || self.writes == 0 {
            self.plan.count_fault();
            return Err(Failed);
        }
        append(&mut self.log, &mut self.spots, name.as_bytes(), bytes);
        self.room -= size;
        self.writes -= 1;
        self.plan.count_call();
        Ok(())
    }
}
