ghost use Rattle.std.specs.Prelude.{◌≡◌, ℕ, ℤ, ◌==◌, ◌↔◌, List, length, IfOk};
ghost use Rattle.std.specs.Int.{w16, w32, w64};
ghost use Rattle.byte_cursor.specs.Integers.{SpellsUnsigned, SpellsSigned, BeginsWith, RunsOut, IsTooLong, unsigned_last, signed_last};
ghost use Rattle.byte_cursor.specs.ReadNumbers.{Gives, byte_at, unsigned_at, signed_at, fixed_at, span_at};

use crate::leb::{CursorFault, signed, unsigned};
use byteorder::{ByteOrder, LittleEndian};
use std::marker::Model;

/// A place in a slice of bytes. Contracts see it as the list of the bytes that are left. Each read
/// takes its item from the front of them, and a read that fails takes nothing.
#[derive(Drop)]
pub struct Cursor<'a> {
    left: &'a [u8],
}

impl<'a> Model for Cursor<'a> {
    ghost Value = { List ℕ };

    ghost view = { λ c. c.left.now };
}

impl<'a> Cursor<'a> {
    /// A cursor in front of all the bytes.
    pub fn new(bytes: &'a [u8]) -> Cursor<'a>
        ensures { result ≡ bytes.now }
    {
        Cursor { left: bytes }
    }

    /// The bytes that are left.
    pub fn rest(&self) -> &'a [u8]
        ensures { result.now ≡ self.now }
    {
        self.left
    }

    /// Whether no byte is left.
    pub fn is_empty(&self) -> bool
        ensures { result ≡ (length self.now == 0) }
    {
        self.left.is_empty()
    }

    /// The next byte. `End` comes exactly where none is left.
    pub fn byte(&mut self) -> Result<u8, CursorFault>
        ensures { Gives (λ b. b) result self.old self.new (byte_at self.old) }
    {
        match self.left {
            [] => Err(CursorFault::End),
            [byte, rest @ ..] => {
                self.left = rest;
                Ok(*byte)
            }
        }
    }

    /// The next `n` bytes. `End` comes exactly where fewer are left.
    pub fn take(&mut self, n: usize) -> Result<&'a [u8], CursorFault>
        ensures { Gives (λ bytes. bytes.now) result self.old self.new (span_at n self.old) }
    {
        if self.left.len() < n {
            return Err(CursorFault::End);
        }
        let (front, rest) = self.left.split_at(n);
        self.left = rest;
        Ok(front)
    }

    /// The next two bytes as a number, the lowest first. `End` comes exactly where fewer are left.
    pub fn le_u16(&mut self) -> Result<u16, CursorFault>
        ensures { Gives (λ n. n) result self.old self.new (fixed_at w16 self.old) }
    {
        Ok(LittleEndian::read_u16(self.take(2)?))
    }

    /// The next four bytes as a number, the lowest first. `End` comes exactly where fewer are left.
    pub fn le_u32(&mut self) -> Result<u32, CursorFault>
        ensures { Gives (λ n. n) result self.old self.new (fixed_at w32 self.old) }
    {
        Ok(LittleEndian::read_u32(self.take(4)?))
    }

    /// The next eight bytes as a number, the lowest first. `End` comes exactly where fewer are left.
    pub fn le_u64(&mut self) -> Result<u64, CursorFault>
        ensures { Gives (λ n. n) result self.old self.new (fixed_at w64 self.old) }
    {
        Ok(LittleEndian::read_u64(self.take(8)?))
    }

    /// The next number, unsigned, of 32 bits and at most 5 bytes (section 5.2.2, `u32`).
    /// `End` comes exactly where the bytes end within it, `TooLong` exactly where it goes on past
    /// its fifth byte or has wrong unused bits there.
    pub fn u32_leb(&mut self) -> Result<u32, CursorFault>
        ensures number { IfOk result (λ n. BeginsWith (SpellsUnsigned 32) self.old n self.new) }
        ensures only { (n : ℕ) (rest : List ℕ) → BeginsWith (SpellsUnsigned 32) self.old n rest → (result ≡ Ok n) × (self.new ≡ rest) }
        ensures end { (result ≡ Err CursorFault.End) ↔ RunsOut 32 self.old }
        ensures too_long { (result ≡ Err CursorFault.TooLong) ↔ IsTooLong unsigned_last 32 self.old }
        // The same as one equation. A fault leaves the bytes as they were.
        ensures exact { Gives (λ n. n) result self.old self.new (unsigned_at 32 self.old) }
    {
        self.unsigned()
    }

    /// The next number, signed, of 32 bits and at most 5 bytes (section 5.2.2, `s32`). The faults
    /// come as for `u32_leb`; the unused bits are copies of the sign.
    pub fn i32_leb(&mut self) -> Result<i32, CursorFault>
        ensures number { IfOk result (λ n. BeginsWith (SpellsSigned 32) self.old n self.new) }
        ensures only { (n : ℤ) (rest : List ℕ) → BeginsWith (SpellsSigned 32) self.old n rest → (result ≡ Ok n) × (self.new ≡ rest) }
        ensures end { (result ≡ Err CursorFault.End) ↔ RunsOut 32 self.old }
        ensures too_long { (result ≡ Err CursorFault.TooLong) ↔ IsTooLong signed_last 32 self.old }
        // The same as one equation. A fault leaves the bytes as they were.
        ensures exact { Gives (λ n. n) result self.old self.new (signed_at 32 self.old) }
    {
        self.signed_32()
    }

    /// The next number, signed, of 64 bits and at most 10 bytes (section 5.2.2, `s64`). The faults
    /// come as for `u32_leb`, at the tenth byte; the unused bits are copies of the sign.
    pub fn i64_leb(&mut self) -> Result<i64, CursorFault>
        ensures number { IfOk result (λ n. BeginsWith (SpellsSigned 64) self.old n self.new) }
        ensures only { (n : ℤ) (rest : List ℕ) → BeginsWith (SpellsSigned 64) self.old n rest → (result ≡ Ok n) × (self.new ≡ rest) }
        ensures end { (result ≡ Err CursorFault.End) ↔ RunsOut 64 self.old }
        ensures too_long { (result ≡ Err CursorFault.TooLong) ↔ IsTooLong signed_last 64 self.old }
        // The same as one equation. A fault leaves the bytes as they were.
        ensures exact { Gives (λ n. n) result self.old self.new (signed_at 64 self.old) }
    {
        self.signed_64()
    }

    #[tactic(auto, unfolding(crate::specs::ReadNumbers::unsigned_at))]
    fn unsigned(&mut self) -> Result<u32, CursorFault>
        ensures { Gives (λ n. n) result self.old self.new (unsigned_at 32 self.old) }
    {
        let (number, rest) = unsigned(self.left, 32)?;
        self.left = rest;
        Ok(number)
    }

    #[tactic(auto, unfolding(crate::specs::ReadNumbers::signed_at))]
    fn signed_32(&mut self) -> Result<i32, CursorFault>
        ensures { Gives (λ n. n) result self.old self.new (signed_at 32 self.old) }
    {
        let (number, rest) = signed(self.left, 32)?;
        self.left = rest;
        Ok(number as i32)
    }

    #[tactic(auto, unfolding(crate::specs::ReadNumbers::signed_at))]
    fn signed_64(&mut self) -> Result<i64, CursorFault>
        ensures { Gives (λ n. n) result self.old self.new (signed_at 64 self.old) }
    {
        let (number, rest) = signed(self.left, 64)?;
        self.left = rest;
        Ok(number)
    }
}
