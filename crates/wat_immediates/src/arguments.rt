// The words of the immediates of accesses: WebAssembly Core 1.0, section 6.5.5.
ghost use Rattle.std.specs.Prelude.{◌≡◌};
ghost use Rattle.wat_immediates.specs.PlainForms.{behind, exponent_of, offset_of, align_of};

use wat_words::u32_of;

/// The number behind a text such as `offset=`.
fn behind(text: &[u8], word: &[u8]) -> Option<u32>
    ensures { result ≡ behind text.now word.now }
{
    match word.strip_prefix(text) {
        Some(rest) => u32_of(rest),
        None => None,
    }
}

/// The exponent of a power of 2.
fn exponent_of(n: u32) -> Option<u32>
    ensures { result ≡ exponent_of n }
{
    let mut power = 1u64;
    for k in 0..32u32 {
        if power > n as u64 {
            return None;
        }
        if power == n as u64 {
            return Some(k);
        }
        power *= 2;
    }
    None
}

/// The number of an offset (6.5.5).
pub(crate) fn offset_of(word: &[u8]) -> Option<u32>
    ensures { result ≡ offset_of word.now }
{
    behind(b"offset=".as_slice(), word)
}

/// The exponent of an alignment (6.5.5).
pub(crate) fn align_of(word: &[u8]) -> Option<u32>
    ensures { result ≡ align_of word.now }
{
    match behind(b"align=".as_slice(), word) {
        Some(n) => exponent_of(n),
        None => None,
    }
}
