// The reply to a request, in the memory of the caller.
ghost use Rattle.std.specs.Prelude.{◌≡◌, ◌<◌, ◌≤◌, ◌+◌, ◌^◌, length, slice_index};
ghost use Rattle.wasix_abi.specs.Requests.{fd_write};
ghost use Rattle.wasix_abi.specs.Replies.{apply_reply};

use crate::requests::FD_WRITE;
use linear_memory::Memory;
use wx_types::{Bytes, Request};

/// Writes the reply of an error number and bytes to a request: a write that succeeded puts how many
/// bytes it wrote at its last argument, and every other reply leaves the memory. No memory is taken.
pub fn apply(memory: &mut Memory, request: &Request, errno: u16, bytes: &Bytes)
    requires count_within { request.now.call ≡ fd_write → errno ≡ 0 → slice_index request.now.words 3 + 4 ≤ length memory.old.bytes }
    requires few_bytes { length bytes.now < 2 ^ 32 }
    ensures written { memory.new ≡ record memory.old { bytes = apply_reply memory.old.bytes request.now errno bytes.now } }
    ensures len { length memory.new.bytes ≡ length memory.old.bytes }
{
    if request.call == FD_WRITE && errno == 0 {
        let written = memory.store(request.words[3], 4, bytes.len() as u64);
        prove!(written.is_ok());
    }
}
