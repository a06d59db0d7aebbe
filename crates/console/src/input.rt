// The bytes of the console's input that are still to come.
ghost use Rattle.std.specs.Prelude.{◌≡◌, ◌==◌, ◌++◌, ◌⊎◌, length, drop};
ghost use Rattle.console.specs.Input.{given, delivered, after_read};

use std::marker::Model;
use wx_types::Bytes;

/// The console's input. Contracts see it as the list of the bytes that are still to come.
#[derive(Debug, Drop)]
pub struct Console {
    input: Bytes,
    at: usize,
}

impl Model for Console {
    ghost use Rattle.std.specs.Prelude.{◌≤◌, List, ℕ, drop, length};

    ghost Value = { List ℕ };

    ghost view = { λ console. drop console.at console.input };

    ghost invariant = { λ console. console.at ≤ length console.input };
}

impl Console {
    /// A console whose input is `input`. No memory is taken.
    pub fn new(input: Bytes) -> Console
        ensures { result ≡ input }
    {
        Console { input, at: 0 }
    }

    /// How many bytes are still to come.
    pub fn len(&self) -> usize
        ensures { result ≡ length self.now }
    {
        self.input.len() - self.at
    }

    /// Whether the input is at its end.
    pub fn is_empty(&self) -> bool
        ensures { result ≡ (length self.now == 0) }
    {
        self.len() == 0
    }

    /// Reads as many bytes as `out` has room for, or all where there are fewer, and gives their number.
    /// The rest of `out` is unchanged. 0 comes only at the end, or for an empty `out`.
    pub fn read(&mut self, out: &mut [u8]) -> usize
        ensures count { result ≡ given self.old (length out.old) }
        ensures out { out.new ≡ delivered self.old (length out.old) ++ drop result out.old }
        ensures left { self.new ≡ after_read self.old (length out.old) }
        ensures end { result ≡ 0 → (length self.old ≡ 0) ⊎ (length out.old ≡ 0) }
    {
        let left = &self.input.as_slice()[self.at..];
        let count = out.len().min(left.len());
        out[..count].copy_from_slice(&left[..count]);
        self.at += count;
        count
    }
}
