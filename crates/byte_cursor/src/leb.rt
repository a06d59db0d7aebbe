ghost use Rattle.std.specs.Prelude.{◌≡◌, ℕ, ℤ, ◌+◌, ◌-◌, ◌*◌, ◌^◌, ◌<◌, ◌≤◌, ◌≤ℤ◌, ◌+ℤ◌, pos, List, ◌++◌, IfOk};
ghost use Rattle.byte_cursor.specs.Integers.{IsWithin, SpellsUnsigned, SpellsSigned, unsigned_last, unsigned_joined, signed_last, signed_joined};
ghost use Rattle.byte_cursor.specs.ReadNumbers.{ReadsAs, number_at};

/// Why an item could not be read. The cursor stays in front of the item.
#[derive(Clone, Copy, Debug, PartialEq, Eq)]
pub enum CursorFault {
    /// The bytes end within the item.
    End,
    /// A variable-length number goes on past its last allowed byte, or has wrong unused bits there.
    TooLong,
}

/// What the last byte of an unsigned number stands for, where `bits` bits are left, if its unused
/// bits are zero.
fn unsigned_end(byte: u8, bits: u32) -> Option<u32>
    requires { byte < 128 }
    ensures { result ≡ unsigned_last bits byte }
{
    if bits < 7 && 1 << bits <= byte {
        None
    } else {
        Some(u32::from(byte))
    }
}

/// What the last byte of a signed number stands for, where `bits` bits are left, if its unused
/// bits are copies of the sign.
fn signed_end(byte: u8, bits: u32) -> Option<i64>
    requires byte { byte < 128 }
    requires bits { 0 < bits }
    ensures { result ≡ signed_last bits byte }
{
    if byte < 64 {
        if bits < 7 && 1 << (bits - 1) <= byte {
            None
        } else {
            Some(i64::from(byte))
        }
    } else if bits < 7 && byte < 128 - (1 << (bits - 1)) {
        None
    } else {
        Some(i64::from(byte) - 128)
    }
}

/// The unsigned number of at most `bits` bits at the front, and the bytes behind it.
pub(crate) fn unsigned(bytes: &[u8], bits: u32) -> Result<(u32, &[u8]), CursorFault>
    requires { bits ≤ 32 }
    ensures reads { ReadsAs (λ x. (x.0, x.1.now)) result (number_at unsigned_last unsigned_joined bits bytes.now) }
    ensures below { IfOk result (λ x. x.0 < 2 ^ bits) }
{
    match bytes {
        [] => Err(CursorFault::End),
        [byte, rest @ ..] => {
            if *byte < 128 {
                match unsigned_end(*byte, bits) {
                    Some(number) => Ok((number, rest)),
                    None => Err(CursorFault::TooLong),
                }
            } else if bits <= 7 {
                Err(CursorFault::TooLong)
            } else {
                let (high, rest) = unsigned(rest, bits - 7)?;
                Ok((high * 128 + u32::from(*byte - 128), rest))
            }
        }
    }
}

/// The signed number of at most `bits` bits at the front, and the bytes behind it.
pub(crate) fn signed(bytes: &[u8], bits: u32) -> Result<(i64, &[u8]), CursorFault>
    requires low { 0 < bits }
    requires high { bits ≤ 64 }
    ensures reads { ReadsAs (λ x. (x.0, x.1.now)) result (number_at signed_last signed_joined bits bytes.now) }
    ensures fits { IfOk result (λ x. IsWithin (2 ^ (bits - 1)) x.0) }
{
    match bytes {
        [] => Err(CursorFault::End),
        [byte, rest @ ..] => {
            if *byte < 128 {
                match signed_end(*byte, bits) {
                    Some(number) => Ok((number, rest)),
                    None => Err(CursorFault::TooLong),
                }
            } else if bits <= 7 {
                Err(CursorFault::TooLong)
            } else {
                let (high, rest) = signed(rest, bits - 7)?;
                Ok((high * 128 + i64::from(*byte - 128), rest))
            }
        }
    }
}

/// No spelling of an unsigned number is the front of another, so bytes begin with at most one
/// spelling, and it is of one number.
pub fn unsigned_has_one_form()
    ensures { (bits : ℕ) (a b x y : List ℕ) (m n : ℕ) → SpellsUnsigned bits a m → SpellsUnsigned bits b n → a ++ x ≡ b ++ y → (a ≡ b) × (m ≡ n) }
{}

/// No spelling of a signed number is the front of another, so bytes begin with at most one
/// spelling, and it is of one number.
pub fn signed_has_one_form()
    ensures { (bits : ℕ) (a b x y : List ℕ) (m n : ℤ) → SpellsSigned bits a m → SpellsSigned bits b n → a ++ x ≡ b ++ y → (a ≡ b) × (m ≡ n) }
{}
