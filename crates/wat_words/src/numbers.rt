// The numbers that words spell: WebAssembly Core 1.0, section 6.3.1.
ghost use Rattle.std.specs.Prelude.{◌≡◌, ◌+◌, ◌*◌, ◌^◌, ◌<◌, ◌≤◌, pos, neg_ℤ, IfSome, FitsSigned};
ghost use Rattle.std.specs.Int.{w32};
ghost use Rattle.std.specs.Char.{digit_value};
ghost use Rattle.wat_words.specs.Numbers.{below, digits, u32_of, i32_of, i64_of, unsigned};

/// The value of a digit or letter: 0 to 9, and from 10 on for the letters in either case. 36 for other bytes.
pub fn digit_value(byte: u8) -> u64
    ensures { result ≡ digit_value byte }
{
    match byte {
        b'0'..=b'9' => (byte - b'0') as u64,
        b'A'..=b'Z' => (byte - b'A') as u64 + 10,
        b'a'..=b'z' => (byte - b'a') as u64 + 10,
        _ => 36,
    }
}

/// The number with one digit more behind its others, if it is below 2^64.
fn with_digit(base: u64, number: u64, digit: u64) -> Option<u64>
    ensures { result ≡ below (2 ^ 64) (Some (base * number + digit)) }
{
    number.checked_mul(base)?.checked_add(digit)
}

/// The number below 2^64 that digits of a base spell, 0 to 9 and then a to f or A to F, with at most one underscore between
/// two of them (`num` and `hexnum`, 6.3.1). `None` for other bytes, for none, and for a greater number.
pub fn digits(base: u64, bytes: &[u8]) -> Option<u64>
    requires low { 1 ≤ base }
    requires high { base ≤ 16 }
    ensures { result ≡ below (2 ^ 64) (digits base bytes.now) }
{
    let mut number = 0u64;
    let mut must_come = true;
    for byte in bytes {
        let digit = digit_value(*byte);
        if digit < base {
            number = with_digit(base, number, digit)?;
            must_come = false;
        } else if *byte == b'_' && !must_come {
            must_come = true;
        } else {
            return None;
        }
    }
    if must_come { None } else { Some(number) }
}

/// A number below 2^64 without a sign: decimal, or hexadecimal behind `0x`.
fn unsigned(word: &[u8]) -> Option<u64>
    ensures { result ≡ below (2 ^ 64) (unsigned word.now) }
{
    match word {
        [b'0', b'x', rest @ ..] => digits(16, rest),
        _ => digits(10, word),
    }
}

/// A number without a sign below a limit.
fn bounded(limit: u64, word: &[u8]) -> Option<u64>
    ensures value { result ≡ below limit (unsigned word.now) }
    ensures bound { IfSome result (λ number. number < limit) }
{
    match unsigned(word) {
        Some(number) if number < limit => Some(number),
        _ => None,
    }
}

/// A number below 2^63 as an integer with a sign.
fn widened(number: u64) -> i64
    requires { number < 2 ^ 63 }
    ensures { result ≡ pos number }
{
    number as i64
}

/// A number of at most 2^63, negated.
fn negated(number: u64) -> i64
    requires { number ≤ 2 ^ 63 }
    ensures { result ≡ neg_ℤ (pos number) }
{
    if number == 0 {
        0
    } else {
        -1 - (number - 1) as i64
    }
}

/// An integer of 64 bits that has 32.
fn narrowed(number: i64) -> i32
    requires { FitsSigned w32 number }
    ensures { result ≡ number }
{
    number as i32
}

/// A number below 2^31 as an integer of 32 bits.
fn positive(number: u64) -> i32
    requires { number < 2 ^ 31 }
    ensures { result ≡ pos number }
{
    narrowed(widened(number))
}

/// A number of at most 2^31, negated, as an integer of 32 bits.
fn negative(number: u64) -> i32
    requires { number ≤ 2 ^ 31 }
    ensures { result ≡ neg_ℤ (pos number) }
{
    narrowed(negated(number))
}

/// The number that a word spells as `u32` (6.3.1): decimal, or hexadecimal behind `0x`, without a sign. `None` where it spells
/// none, and where that isn't below 2^32.
pub fn u32_of(word: &[u8]) -> Option<u32>
    ensures { result ≡ u32_of word.now }
{
    match bounded(0x1_0000_0000, word) {
        Some(number) => Some(number as u32),
        None => None,
    }
}

/// The integer that a word spells as `i32` (6.3.1): decimal, or hexadecimal behind `0x`, with or without a sign. `None` where it
/// spells none, where that is outside -2^31 to 2^32 - 1, and with a sign outside -2^31 to 2^31 - 1. The numbers from 2^31 on stand for
/// the negative integers with these 32 bits.
pub fn i32_of(word: &[u8]) -> Option<i32>
    ensures { result ≡ i32_of word.now }
{
    match word {
        [b'+', rest @ ..] => match bounded(0x8000_0000, rest) {
            Some(number) => Some(positive(number)),
            None => None,
        },
        [b'-', rest @ ..] => match bounded(0x8000_0001, rest) {
            Some(number) => Some(negative(number)),
            None => None,
        },
        _ => match u32_of(word) {
            Some(number) => Some(number.cast_signed()),
            None => None,
        },
    }
}

/// The integer that a word spells as `i64` (6.3.1), like `i32_of` with 64 bits.
pub fn i64_of(word: &[u8]) -> Option<i64>
    ensures { result ≡ i64_of word.now }
{
    match word {
        [b'+', rest @ ..] => match bounded(0x8000_0000_0000_0000, rest) {
            Some(number) => Some(widened(number)),
            None => None,
        },
        [b'-', rest @ ..] => match bounded(0x8000_0000_0000_0001, rest) {
            Some(number) => Some(negated(number)),
            None => None,
        },
        _ => match unsigned(word) {
            Some(number) => Some(number.cast_signed()),
            None => None,
        },
    }
}
