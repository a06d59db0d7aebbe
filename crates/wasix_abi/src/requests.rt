// The request of a call, over the memory of its process.
ghost use Rattle.std.specs.Prelude.{◌≡◌, ◌<◌, ◌≤◌, ◌+◌, ◌*◌, length, true, Some, IfOk, IfErr};
ghost use Rattle.wx_types.specs.Errno.{errno_number};
ghost use Rattle.wasix_abi.specs.Buffers.{buffers_at, all_within, total_len};
ghost use Rattle.wasix_abi.specs.Requests.{argument_count, nine_words, list_refusal, write_request, request_of, KeepsTheCall, RefusesFaultOrInval, CountLiesWithin, WritesAtMost, RefusedIsEmpty};

use crate::buffers::{gathered, total_len};
use linear_memory::Memory;
use std::alloc::{AllocError, Global};
use wx_types::{Bytes, Errno, Request};

/// The number of `fd_write`.
pub const FD_WRITE: u16 = 17;

/// The most buffers of a list.
const MOST_BUFFERS: u32 = 1024;

/// The most bytes of one read or write.
const MOST_BYTES: u64 = 16_777_216;

/// The arguments in their order and zeros behind them.
fn nine_words(arguments: &[u32]) -> [u64; 9]
    requires { length arguments.now ≤ 9 }
    ensures { result ≡ nine_words arguments.now }
{
    let mut words = [0; 9];
    for (i, argument) in arguments.iter().enumerate() {
        words[i] = u64::from(*argument);
    }
    words
}

/// How many bytes a write of the `n` buffers that are listed at an address has, or why the process
/// refuses it.
#[tactic(auto, unfolding(crate::specs::Requests::list_refusal))]
fn write_len(memory: &Memory, list: u32, n: u32, count: u32) -> Result<u64, Errno>
    ensures len { IfOk result (λ t. t ≡ total_len (buffers_at memory.now.bytes list n)) }
    ensures good { IfOk result (λ _. list_refusal memory.now.bytes list n count ≡ 0) }
    ensures within { IfOk result (λ _. list + 8 * n ≤ length memory.now.bytes) }
    ensures buffers_within { IfOk result (λ _. all_within memory.now.bytes (buffers_at memory.now.bytes list n) ≡ true) }
    ensures refused { IfErr result (λ e. list_refusal memory.now.bytes list n count ≡ errno_number e) }
    ensures refused_more { IfErr result (λ e. 0 < errno_number e) }
{
    if !memory.holds(list as u64, 8 * n as u64) || !memory.holds(count as u64, 4) {
        return Err(Errno::Fault);
    }
    let Some(total) = total_len(memory, list, n) else {
        return Err(Errno::Fault);
    };
    if n > MOST_BUFFERS || total > MOST_BYTES {
        return Err(Errno::Inval);
    }
    Ok(total)
}

/// The request of `fd_write`, whose arguments are the descriptor, the address of the list of buffers,
/// how many there are, and the address of the count.
fn write_request(alloc: Global, memory: &Memory, arguments: &[u32]) -> Result<Request, AllocError>
    requires { length arguments.now ≡ 4 }
    ensures { IfOk result (λ r. r ≡ write_request memory.now.bytes (nine_words arguments.now)) }
{
    let words = nine_words(arguments);
    let (list, n, count) = (arguments[1], arguments[2], arguments[3]);
    let (refused, one) = match write_len(memory, list, n, count) {
        Ok(total) => (
            Errno::Success,
            gathered(alloc, memory, list, n, total as usize)?,
        ),
        Err(errno) => (errno, Bytes::empty(alloc)),
    };
    Ok(Request {
        call: FD_WRITE,
        refused: refused.number(),
        words,
        one,
        two: Bytes::empty(alloc),
    })
}

/// The request of a call with its arguments, where the thread stands at the return of its last frame
/// (4), `fd_write` (17) or `proc_exit` (37). `refused` of a write is fault where the list, a buffer or
/// the count passes the memory, else inval where there are more than 1,024 buffers or 16,777,216
/// bytes in sum, else 0. `AllocError` is want of memory and nothing else; no memory is taken before a
/// write is known to be good.
pub fn request_of(
    alloc: Global,
    memory: &Memory,
    call: u16,
    arguments: &[u32],
) -> Result<Request, AllocError>
    requires { argument_count call ≡ Some (length arguments.now) }
    ensures value { IfOk result (λ r. r ≡ request_of memory.now.bytes call arguments.now) }
    ensures most { IfOk result (λ r. length r.one ≤ 16777216) }
{
    if call == FD_WRITE {
        return write_request(alloc, memory, arguments);
    }
    Ok(Request {
        call,
        refused: 0,
        words: nine_words(arguments),
        one: Bytes::empty(alloc),
        two: Bytes::empty(alloc),
    })
}

/// Laws of requests, for the callers that apply a reply.
pub fn request_laws()
    ensures keeps_the_call { KeepsTheCall }
    ensures refuses { RefusesFaultOrInval }
    ensures count_lies_within { CountLiesWithin }
    ensures writes_at_most { WritesAtMost }
    ensures refused_is_empty { RefusedIsEmpty }
{}
