//! Rows. Numbers are hexadecimal but for that of the function.

use std::alloc::{AllocError, Global};

/// Which function a thread begins, with which arguments, and what is shown of the memory in the end.
#[derive(Drop)]
pub struct Row {
    pub function: u32,
    pub arguments: Vec<u64>,
    /// What answers the calls, waits and notifies at which it stands, in their order.
    pub answers: Vec<Option<u64>>,
    /// Whether the thread is one whose handler's frame found no room.
    pub marked: bool,
    /// An address and a length.
    pub shown: Option<(u32, u32)>,
}

fn address(word: Option<&&str>) -> Option<u32> {
    u32::from_str_radix(word?, 16).ok()
}

/// The numbers of words.
fn numbers(alloc: Global, words: &[&str]) -> Result<Option<Vec<u64>>, AllocError> {
    let mut numbers = Vec::new(alloc);
    for word in words {
        let Ok(number) = u64::from_str_radix(word, 16) else {
            return Ok(None);
        };
        numbers.push(number)?;
    }
    Ok(Some(numbers))
}

/// The answers of words, each a number or `none`.
fn answers(alloc: Global, words: &[&str]) -> Result<Option<Vec<Option<u64>>>, AllocError> {
    let mut answers = Vec::new(alloc);
    for word in words {
        if *word == "none" {
            answers.push(None)?;
        } else {
            let Ok(number) = u64::from_str_radix(word, 16) else {
                return Ok(None);
            };
            answers.push(Some(number))?;
        }
    }
    Ok(Some(answers))
}

/// What stands before and behind a word; all of it and nothing where the word doesn't stand there.
fn parted<'a>(words: &'a [&'a str], mark: &str) -> (&'a [&'a str], &'a [&'a str]) {
    for i in 0..words.len() {
        if words[i] == mark {
            return (&words[..i], &words[i + 1..]);
        }
    }
    (words, &[])
}

fn is_marked(words: &[&str]) -> bool {
    match words.first() {
        Some(word) => *word == "marked",
        None => false,
    }
}

/// The function that words name.
fn function(words: &[&str]) -> Option<u32> {
    words.get(1)?.parse::<u32>().ok()
}

/// An address and a length.
fn range(words: &[&str]) -> Option<(u32, u32)> {
    Some((address(words.first())?, address(words.get(1))?))
}

impl Row {
    /// The row of words, of which these answer.
    fn of_words(
        alloc: Global,
        words: &[&str],
        given: &[&str],
        shown: Option<(u32, u32)>,
    ) -> Result<Option<Row>, AllocError> {
        let Some(function) = function(words) else {
            return Ok(None);
        };
        let Some(arguments) = numbers(alloc, words.get(2..).unwrap_or(&[]))? else {
            return Ok(None);
        };
        let Some(answers) = answers(alloc, given)? else {
            return Ok(None);
        };
        Ok(Some(Row {
            function,
            arguments,
            answers,
            marked: is_marked(words),
            shown,
        }))
    }

    /// The row of a line `run FUNCTION ARGUMENT.. [answers ANSWER..] [bytes AT LENGTH]`, with `marked` in place of `run` for a
    /// thread that is marked.
    pub fn parse(alloc: Global, line: &str) -> Result<Option<Row>, AllocError> {
        let words: Vec<&str> = line.split_whitespace().collect(alloc)?;
        let (front, shown) = parted(words.as_slice(), "bytes");
        let (front, given) = parted(front, "answers");
        Row::of_words(alloc, front, given, range(shown))
    }
}
