// What the host knows of the world around it: files by name, bytes that come, and bytes that go.
ghost use Rattle.std.specs.Prelude.{◌≡◌, ◌≢◌, ℕ, ◌<◌, ◌≤◌, List, [], Option, Some, length, take, drop, OnOk, OnErr, IfOk, IfErr, IfSome, IsErrOf, IsSomeAnd, is_some};
ghost use Rattle.wx_types.specs.Files.{Files, file_named, told_file};
ghost use Rattle.wx_types.specs.Outside.{Rose, CountsError, followed_by, preceded_by, GrewByFront};

use super::byte_list::Bytes;
use super::errors::{Failed, ShelfError};
use std::alloc::Global;

/// Files by name.
pub trait Shelf {
    // How often the shelf failed, in a u64 that stands still at its end.
    ghost faults: { Self → ℕ };

    // The files that it holds, where it tells them.
    ghost held: { Self → Option Files };

    /// The content of the named file, of at most `limit` bytes.
    ///
    /// `Failed` comes only where the count of faults rose in this call, `TooLong` only where the file
    /// is longer than `limit`, and `Memory` for want of memory.
    fn read(&mut self, alloc: Global, name: &str, limit: u64) -> Result<Bytes, ShelfError>
        ensures never_falls { faults self.old ≤ faults self.new }
        ensures no_fault { OnOk result (faults self.new ≡ faults self.old) }
        ensures fault { IfErr result (λ e. CountsError e (faults self.old) (faults self.new)) }

        ensures within { IfOk result (λ bytes. length bytes ≤ limit) }

        // Where the shelf tells its files, it gives the named one's bytes.
        ensures content { IfOk result (λ bytes. IfSome (held self.old) (λ files. file_named files name.now ≡ Some bytes)) }
        ensures too_long { IsErrOf result ShelfError.TooLong → IfSome (held self.old) (λ files. IsSomeAnd (file_named files name.now) (λ bytes. limit < length bytes)) }

        ensures kept { held self.new ≡ held self.old };

    /// Writes `bytes` under the name, in place of what the name had.
    ///
    /// `Failed` comes only where the count of faults rose in this call. Nothing is said of what
    /// the name has then.
    fn write(&mut self, name: &str, bytes: &[u8]) -> Result<(), Failed>
        ensures never_falls { faults self.old ≤ faults self.new }
        ensures no_fault { OnOk result (faults self.new ≡ faults self.old) }
        ensures fault { OnErr result (Rose (faults self.old) (faults self.new)) }

        ensures tells { is_some (held self.new) ≡ is_some (held self.old) }
        ensures written { OnOk result (IfSome (held self.new) (λ files. file_named files name.now ≡ Some bytes.now)) }
        ensures others { (other : List ℕ) → other ≢ name.now → told_file (held self.new) other ≡ told_file (held self.old) other };
}

/// Bytes that come one after another.
pub trait Source {
    // How often the source failed, in a u64 that stands still at its end.
    ghost faults: { Self → ℕ };

    // The bytes that are still to come, and those that came, where it tells them.
    ghost left: { Self → Option (List ℕ) };

    ghost given: { Self → Option (List ℕ) };

    /// Writes the next bytes to the front of `out`, and answers how many. 0 is the end of the
    /// bytes, or comes for an empty `out`.
    ///
    /// `Failed` comes only where the count of faults rose in this call. No byte came then.
    fn read(&mut self, out: &mut [u8]) -> Result<usize, Failed>
        ensures never_falls { faults self.old ≤ faults self.new }
        ensures no_fault { OnOk result (faults self.new ≡ faults self.old) }
        ensures fault { OnErr result (Rose (faults self.old) (faults self.new)) }

        ensures within { IfOk result (λ n. n ≤ length out.old) }
        ensures behind { IfOk result (λ n. drop n out.new ≡ drop n out.old) }
        ensures unwritten { OnErr result (out.new ≡ out.old) }

        // Where the source tells its bytes, what it wrote are the next of them.
        ensures next { IfOk result (λ n. left self.old ≡ preceded_by (left self.new) (take n out.new)) }
        ensures gave { IfOk result (λ n. given self.new ≡ followed_by (given self.old) (take n out.new)) }
        ensures end { result ≡ Ok 0 → 0 < length out.old → IfSome (left self.old) (λ bytes. bytes ≡ []) }
        ensures left_kept { OnErr result (left self.new ≡ left self.old) }
        ensures given_kept { OnErr result (given self.new ≡ given self.old) };
}

/// A place that takes bytes one after another.
pub trait Sink {
    // How often the sink failed, in a u64 that stands still at its end.
    ghost faults: { Self → ℕ };

    // The bytes that it took, where it tells them.
    ghost taken: { Self → Option (List ℕ) };

    /// Takes a front of `piece`, and answers how many bytes that is: one at least, unless `piece` is
    /// empty.
    ///
    /// `Failed` comes only where the count of faults rose in this call. No byte was taken then.
    fn write(&mut self, piece: &[u8]) -> Result<usize, Failed>
        ensures never_falls { faults self.old ≤ faults self.new }
        ensures no_fault { OnOk result (faults self.new ≡ faults self.old) }
        ensures fault { OnErr result (Rose (faults self.old) (faults self.new)) }

        ensures within { IfOk result (λ n. n ≤ length piece.now) }
        ensures some { IfOk result (λ n. 0 < length piece.now → 0 < n) }
        ensures took { IfOk result (λ n. taken self.new ≡ followed_by (taken self.old) (take n piece.now)) }
        ensures taken_kept { OnErr result (taken self.new ≡ taken self.old) };
}

/// Writes all of `bytes` to the sink, in as many calls as it needs.
///
/// `Failed` comes only where the count of faults rose. The sink has then taken a front of `bytes`.
pub fn write_whole<S: Sink>(sink: &mut S, bytes: &[u8]) -> Result<(), Failed>
    ensures never_falls { S.faults sink.old ≤ S.faults sink.new }
    ensures no_fault { OnOk result (S.faults sink.new ≡ S.faults sink.old) }
    ensures fault { OnErr result (Rose (S.faults sink.old) (S.faults sink.new)) }

    ensures whole { OnOk result (S.taken sink.new ≡ followed_by (S.taken sink.old) bytes.now) }
    ensures front { OnErr result (GrewByFront (S.taken sink.old) (S.taken sink.new) bytes.now) }
{
    let mut from = 0;
    while from < bytes.len() {
        from += sink.write(&bytes[from..])?;
    }
    Ok(())
}
