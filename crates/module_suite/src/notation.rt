//! How a case writes its bytes: words between blanks.
//!
//! | word | bytes |
//! |---|---|
//! | `7f` | a byte |
//! | `7f*300` | a byte so many times |
//! | `"text"` | the characters, which are ASCII and no blanks |
//! | `+300` | a number of 32 bits, in LEB128 |
//! | `[ .. ]` | how many bytes these are, in LEB128, and the bytes |
//! | `( .. )*300` | the bytes so many times |
//! | `{ .. }` | the bytes, of which a variation may keep a front |
//! | `$name` | those of the fragment of that name |

use anyhow::{Result, anyhow};
use std::alloc::Global;
use std::collections::BTreeMap;

/// A word that is none of the notation, or names no fragment.
fn no_word() -> anyhow::Error {
    anyhow!("a word of no meaning")
}

/// Bytes by their names, which are written as they are used, `$name`.
pub type Fragments = BTreeMap<Vec<u8>, Vec<u8>>;

/// What of words is varied, again and again, at each index.
#[derive(Clone, Copy)]
pub enum Each {
    /// Of the bytes in `{ }` so many are kept as the index says, from the first on.
    Front,
    /// The number whose place among all is the index is in so many bytes, which are at most eight.
    Number(u32),
}

impl Each {
    /// The words that a case varies, and how, if it does.
    pub fn parse(words: &str) -> Option<(Each, &str)> {
        if let Some(rest) = words.strip_prefix("each front ") {
            return Some((Each::Front, rest));
        }
        let numbers = words.strip_prefix("each number in ")?;
        let (size, rest) = numbers.split_once(" bytes ")?;
        Some((Each::Number(size.parse::<u32>().ok()?), rest))
    }
}

/// The bytes of words. Numbers are in as few bytes as may be, but for one that is varied. It is an error
/// where a word has no meaning, a group doesn't end, or there is not enough memory.
pub fn spell(
    alloc: Global,
    fragments: &Fragments,
    words: &str,
    varied: Option<(Each, usize)>,
) -> Result<Spelling> {
    let mut spelling = Spelling {
        bytes: Vec::new(alloc),
        numbers: 0,
        bracketed: 0,
        varied,
        open: Vec::new(alloc),
    };
    for word in words.split_whitespace() {
        spelling.write(fragments, word.as_bytes())?;
    }
    if spelling.open.is_empty() {
        Ok(spelling)
    } else {
        Err(anyhow!("a group that doesn't end"))
    }
}

/// What comes of a group's bytes.
#[derive(Clone, Copy)]
enum Kind {
    /// `[ ]`: their size comes before them, which has this place among the numbers.
    Sized(usize),
    /// `( )`: they come several times.
    Repeated,
    /// `{ }`: a front of them may be kept.
    Bracketed,
}

/// A group that isn't closed yet, and the bytes before it.
#[derive(Drop)]
struct Group {
    kind: Kind,
    before: Vec<u8>,
}

/// The bytes of words so far, within the innermost open group, and what of them may be varied.
#[derive(Drop)]
pub struct Spelling {
    pub bytes: Vec<u8>,
    /// How many numbers are among them: those of `+` and the sizes of `[ ]`, but for those in fragments.
    pub numbers: usize,
    /// How many bytes stand in `{ }`.
    pub bracketed: usize,
    varied: Option<(Each, usize)>,
    open: Vec<Group>,
}

impl Spelling {
    fn write(&mut self, fragments: &Fragments, word: &[u8]) -> Result<()> {
        match word {
            [b'['] => {
                let place = self.place();
                self.open(Kind::Sized(place))
            }
            [b'('] => self.open(Kind::Repeated),
            [b'{'] => self.open(Kind::Bracketed),
            [b']'] | [b'}'] => self.close(1),
            [b')', b'*', times @ ..] => self.close(decimal(times)?),
            [b'+', number @ ..] => {
                let place = self.place();
                self.number(place, decimal(number)?)
            }
            [b'"', text @ .., b'"'] => Ok(self.bytes.extend_from_slice(text)?),
            [b'$', ..] => match fragments.get(word) {
                Some(bytes) => Ok(self.bytes.extend_from_slice(bytes.as_slice())?),
                None => Err(no_word()),
            },
            [_, _] => self.byte(word, 1),
            [_, _, b'*', times @ ..] => self.byte(&word[..2], decimal(times)?),
            _ => Err(no_word()),
        }
    }

    /// The place of the next number.
    fn place(&mut self) -> usize {
        let place = self.numbers;
        self.numbers = place.saturating_add(1);
        place
    }

    /// In how many bytes the number of that place is at least.
    fn least_size(&self, place: usize) -> u32 {
        match self.varied {
            Some((Each::Number(size), index)) if index == place => size,
            _ => 1,
        }
    }

    /// Adds the number of that place.
    fn number(&mut self, place: usize, number: u32) -> Result<()> {
        let least = self.least_size(place);
        let mut rest = number;
        for size in 1..8u32 {
            if rest < 128 && least <= size {
                break;
            }
            self.bytes.push((rest % 128) as u8 + 128)?;
            rest /= 128;
        }
        self.bytes.push((rest % 128) as u8)?;
        Ok(())
    }

    fn open(&mut self, kind: Kind) -> Result<()> {
        let empty = Vec::new(*self.bytes.allocator());
        let before = std::mem::replace(&mut self.bytes, empty);
        self.open.push(Group { kind, before })?;
        Ok(())
    }

    /// Ends the innermost group, whose bytes come so many times.
    fn close(&mut self, times: u32) -> Result<()> {
        let Some(Group { kind, before }) = self.open.pop() else {
            return Err(anyhow!("a group that doesn't end"));
        };
        let inner = std::mem::replace(&mut self.bytes, before);
        match kind {
            Kind::Sized(place) => {
                self.number(place, u32::try_from(inner.len())?)?;
                self.bytes.extend_from_slice(inner.as_slice())?;
            }
            Kind::Repeated => {
                for _ in 0..times {
                    self.bytes.extend_from_slice(inner.as_slice())?;
                }
            }
            Kind::Bracketed => {
                self.bracketed = inner.len();
                let kept = match self.varied {
                    Some((Each::Front, index)) => index.min(inner.len()),
                    _ => inner.len(),
                };
                self.bytes.extend_from_slice(&inner[..kept])?;
            }
        }
        Ok(())
    }

    /// Adds the byte of two hexadecimal digits, so many times.
    fn byte(&mut self, digits: &[u8], times: u32) -> Result<()> {
        let byte = u8::from_str_radix(std::str::from_utf8(digits)?, 16)?;
        for _ in 0..times {
            self.bytes.push(byte)?;
        }
        Ok(())
    }
}

/// The number that digits of decimal spell.
fn decimal(digits: &[u8]) -> Result<u32> {
    Ok(std::str::from_utf8(digits)?.parse::<u32>()?)
}
