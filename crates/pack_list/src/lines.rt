// The lines of a list, and what each says.
ghost use Rattle.std.specs.Prelude.{◌≡◌, ◌≢◌, ◌<◌, ◌≤◌, ℕ, ◌∷◌, ◌++◌, [], true, false, length, slice_index, Option, Some, None, MatchOption};
ghost use Rattle.std.specs.Option.{option_copied, option_map};
ghost use Rattle.pack_list.specs.Lines.{is_name, said, words, line_of};
ghost use Rattle.pack_list.specs.Cuts.{Cuts, seen};

/// What a line says.
#[derive(Clone, Copy, Debug)]
pub enum Line<'a> {
    /// `dir PATH`: a directory of this path.
    Directory(&'a [u8]),
    /// `file PATH NAME`: a file of this path, with the bytes of the named file.
    File(&'a [u8], &'a str),
}

// the place of the first of these bytes, or the length
fn place_of(bytes: &[u8], separator: u8) -> usize
    ensures within { result ≤ length bytes.now }
    ensures before { (k : ℕ) → k < result → slice_index bytes.now k ≢ separator }
    ensures found { result < length bytes.now → slice_index bytes.now result ≡ separator }
{
    for (i, byte) in bytes.iter().enumerate() {
        if *byte == separator {
            return i;
        }
    }
    bytes.len()
}

/// What stands before the first of these bytes, and what stands behind it, where there is one.
pub(crate) fn cut(bytes: &[u8], separator: u8) -> (&[u8], Option<&[u8]>)
    ensures { Cuts separator bytes.now result.0.now (option_copied result.1) }
{
    let place = place_of(bytes, separator);
    if place < bytes.len() {
        (&bytes[..place], Some(&bytes[place + 1..]))
    } else {
        (bytes, None)
    }
}

// the bytes as a name: a text that isn't empty
fn name_of(bytes: &[u8]) -> Option<&str>
    ensures { MatchOption result (is_name bytes.now ≡ false) (λ name. (is_name bytes.now ≡ true) × (name.now ≡ bytes.now)) }
{
    if bytes.is_empty() {
        return None;
    }
    match str::from_utf8(bytes) {
        Ok(name) => Some(name),
        Err(_) => None,
    }
}

// what a line of three words says
fn file_line<'a>(kind: &[u8], path: &'a [u8], name: &'a [u8]) -> Option<Line<'a>>
    ensures { option_map seen result ≡ said (kind.now ∷ path.now ∷ name.now ∷ []) }
{
    if kind != b"file".as_slice() {
        return None;
    }
    match name_of(name) {
        Some(name) => Some(Line::File(path, name)),
        None => None,
    }
}

// what a line of two words says
fn directory_line<'a>(kind: &[u8], path: &'a [u8]) -> Option<Line<'a>>
    ensures { option_map seen result ≡ said (kind.now ∷ path.now ∷ []) }
{
    if kind != b"dir".as_slice() {
        return None;
    }
    Some(Line::Directory(path))
}

// what a line says that has these words, and this behind their last space
#[tactic(auto, using(crate::proofs::Pieces::words_cut, crate::proofs::Pieces::too_many))]
fn third<'a>(kind: &[u8], path: &'a [u8], rest: &'a [u8]) -> Option<Line<'a>>
    ensures { option_map seen result ≡ said (kind.now ∷ path.now ∷ words rest.now) }
{
    let (name, more) = cut(rest, b' ');
    match more {
        None => file_line(kind, path, name),
        Some(_) => None,
    }
}

#[tactic(auto, using(crate::proofs::Pieces::words_cut))]
fn second<'a>(kind: &[u8], rest: &'a [u8]) -> Option<Line<'a>>
    ensures { option_map seen result ≡ said (kind.now ∷ words rest.now) }
{
    let (path, more) = cut(rest, b' ');
    match more {
        None => directory_line(kind, path),
        Some(rest) => third(kind, path, rest),
    }
}

/// What a line says: `dir PATH` or `file PATH NAME`, one space apart, where NAME is a text and isn't empty. `None` where it
/// is neither.
#[tactic(auto, using(crate::proofs::Pieces::words_cut), unfolding(crate::specs::Lines::line_of))]
pub(crate) fn line_of(line: &[u8]) -> Option<Line<'_>>
    ensures { option_map seen result ≡ line_of line.now }
{
    let (kind, more) = cut(line, b' ');
    match more {
        None => None,
        Some(rest) => second(kind, rest),
    }
}
