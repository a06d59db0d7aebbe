// The bytes of files, and the limits on them.
ghost use Rattle.std.specs.Prelude.{◌≡◌, ◌<◌, ◌^◌, ◌++◌, Ok, Err, MatchResult, length, take, drop};
ghost use Rattle.file_tree.specs.Files as spec;

use crate::walk::content_at;
use tree_nodes::{Content, Nodes};
use wx_types::Errno;

/// The most bytes of one file, and of all files.
pub const MOST_BYTES: u64 = 67_108_864;

/// The file's bytes; `Noent` where the node isn't there, `Isdir` for a directory.
pub fn bytes_at(nodes: &Nodes, number: u32) -> Result<&[u8], Errno>
    ensures { MatchResult result (λ bytes. spec.bytes_at nodes.now number ≡ Ok bytes.now) (λ error. spec.bytes_at nodes.now number ≡ Err error) }
{
    match content_at(nodes, number)? {
        Content::File(file) => Ok(file.as_slice()),
        Content::Dir(_) => Err(Errno::Isdir),
    }
}

/// The same, but `Inval` for a directory.
pub fn file_or_inval(nodes: &Nodes, number: u32) -> Result<&[u8], Errno>
    ensures { MatchResult result (λ bytes. spec.sized_at nodes.now number ≡ Ok bytes.now) (λ error. spec.sized_at nodes.now number ≡ Err error) }
{
    match content_at(nodes, number)? {
        Content::File(file) => Ok(file.as_slice()),
        Content::Dir(_) => Err(Errno::Inval),
    }
}

/// Puts the bytes from `offset` on at the front of `out`, as many as are there and fit, and gives their
/// number.
pub fn read_from(bytes: &[u8], offset: u64, out: &mut [u8]) -> usize
    ensures count { result ≡ length (take (length out.old) (drop offset bytes.now)) }
    ensures bytes { out.new ≡ take (length out.old) (drop offset bytes.now) ++ drop result out.old }
{
    if offset >= bytes.len() as u64 {
        return 0;
    }
    let rest = &bytes[offset as usize..];
    let count = rest.len().min(out.len());
    out[..count].copy_from_slice(&rest[..count]);
    count
}

/// Whether a file of `before` bytes may end at `end` and then have `after` bytes: `Fbig` where `end` is
/// more than 67,108,864, `Nospc` where all files would have more.
pub fn check_room(nodes: &Nodes, before: u64, end: u64, after: u64) -> Result<bool, Errno>
    requires { before < 2 ^ 63 }
    ensures { result ≡ spec.room_for nodes.now before end after }
{
    if end > MOST_BYTES {
        return Err(Errno::Fbig);
    }
    if after > MOST_BYTES + before || nodes.total() + after > MOST_BYTES + before {
        return Err(Errno::Nospc);
    }
    Ok(true)
}
