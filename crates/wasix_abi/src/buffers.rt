// Lists of buffers in a memory.
ghost use Rattle.std.specs.Prelude.{◌≡◌, ◌≤◌, ◌<◌, ◌+◌, ◌*◌, ◌^◌, length, true, false, IfOk, MatchOption};
ghost use Rattle.wasix_abi.specs.Buffers.{word_at, buffers_at, all_within, total_len, gathered};

use linear_memory::Memory;
use std::alloc::{AllocError, Global};
use wx_types::Bytes;

/// The number in the four bytes at an address, the lowest byte first.
fn word_at(memory: &Memory, at: u64) -> u64
    requires { at + 4 ≤ length memory.now.bytes }
    ensures value { result ≡ word_at memory.now.bytes at }
    ensures fits { result < 2 ^ 32 }
{
    match memory.load(at, 4) {
        Ok(word) => word,
        Err(_) => unreachable!(),
    }
}

/// How many bytes the `n` buffers of the list at an address have in sum, or `None` where one of them
/// passes the memory.
pub fn total_len(memory: &Memory, list: u32, n: u32) -> Option<u64>
    requires { list + 8 * n ≤ length memory.now.bytes }
    ensures { MatchOption result (all_within memory.now.bytes (buffers_at memory.now.bytes list n) ≡ false) (λ t. (all_within memory.now.bytes (buffers_at memory.now.bytes list n) ≡ true) × (t ≡ total_len (buffers_at memory.now.bytes list n))) }
{
    let mut total = 0;
    for i in 0..n {
        let entry = list as u64 + 8 * i as u64;
        let address = word_at(memory, entry);
        let len = word_at(memory, entry + 4);
        if !memory.holds(address, len) {
            return None;
        }
        total += len;
    }
    Some(total)
}

/// The bytes of the `n` buffers of the list at an address, one buffer after the other; there are
/// `total` of them.
pub fn gathered(
    alloc: Global,
    memory: &Memory,
    list: u32,
    n: u32,
    total: usize,
) -> Result<Bytes, AllocError>
    requires list_within { list + 8 * n ≤ length memory.now.bytes }
    requires buffers_within { all_within memory.now.bytes (buffers_at memory.now.bytes list n) ≡ true }
    ensures { IfOk result (λ b. b ≡ gathered memory.now.bytes (buffers_at memory.now.bytes list n)) }
{
    let mut bytes = Vec::with_capacity(alloc, total)?;
    for i in 0..n {
        let entry = list as u64 + 8 * i as u64;
        let address = word_at(memory, entry);
        let len = word_at(memory, entry + 4);
        if memory
            .append_bytes(address as u32, len as u32, &mut bytes)
            .is_err()
        {
            return Err(AllocError);
        }
    }
    Ok(Bytes::from_vec(bytes))
}
