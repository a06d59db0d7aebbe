// A path's components, and the rules that they are tested by.
ghost use Rattle.std.specs.Prelude.{◌≡◌, false, ◌<◌, ◌≤◌, ◌+◌, ◌*◌, ◌++◌, ◌∷◌, [], if◌then◌else◌, not, length, map, take, slice_index_or};
ghost use Rattle.std.specs.List.{filter};
ghost use Rattle.std.specs.Option.{option_copied};
ghost use Rattle.arrayvec.specs.ArrayVec.{array_vec_len};
ghost use Rattle.std.specs.Str as text;
ghost use Rattle.path_walk.specs.Paths as spec;
ghost use Rattle.path_walk.specs.Paths.{pieces, is_empty, is_long_piece, any_is_long, is_no_text, parts_of, split_path, AreParts};
ghost use Rattle.path_walk.specs.Pieces.{first_len, pieces_left, left_len, dots_test};

use arrayvec::ArrayVec;
use std::marker::Model;
use wx_types::Errno;

/// What a path says: where it begins, whether it must name a directory, and its components. Contracts
/// see it as a record of these. It borrows from the path, and takes no memory.
#[derive(Drop)]
pub struct Parts<'a> {
    absolute: bool,
    must_dir: bool,
    last_dot: bool,
    names: ArrayVec<&'a [u8], 512>,
}

impl<'a> Model for Parts<'a> {
    ghost use Rattle.std.specs.Prelude.{map};
    ghost use Rattle.path_walk.specs.Paths.{PathParts, AreParts};

    ghost Value = { PathParts };

    ghost invariant = { λ a. AreParts (record { absolute = a.absolute; must_dir = a.must_dir; last_dot = a.last_dot; names = map (λ name. name.now) a.names.items }) };

    ghost view = { λ a. record { absolute = a.absolute; must_dir = a.must_dir; last_dot = a.last_dot; names = map (λ name. name.now) a.names.items } };
}

impl<'a> Parts<'a> {
    /// What holds of the parts of every path: each component has 1 to 255 bytes, is UTF-8, has no slash and no zero byte, and
    /// isn't `.`; without a component the path must name a directory; where the last one is `..`, `last_dot` holds.
    pub fn are_parts(&self)
        ensures { AreParts self.now }
    {
        let _ = self.names.len();
    }

    /// Whether the path begins with `/`, and so at the root.
    pub fn absolute(&self) -> bool
        ensures { result ≡ self.now.absolute }
    {
        self.absolute
    }

    /// Whether what the path names must be a directory: it ends with `/`, `/.` or `/..`, or is `.` or `..`.
    pub fn must_dir(&self) -> bool
        ensures { result ≡ self.now.must_dir }
    {
        self.must_dir
    }

    /// Whether the last component that isn't empty is `.` or `..`.
    pub fn last_dot(&self) -> bool
        ensures { result ≡ self.now.last_dot }
    {
        self.last_dot
    }

    /// How many components there are besides empty ones and `.`, at most 512.
    pub fn len(&self) -> usize
        ensures { result ≡ length self.now.names }
    {
        self.names.len()
    }

    /// The component at `index`, counted from 0: a name or `..`.
    pub fn name(&self, index: usize) -> &'a [u8]
        requires { index < length self.now.names }
        ensures { result.now ≡ slice_index_or self.now.names index result.now }
    {
        self.names[index]
    }
}

// How many bytes stand before the first slash, or in all where there is none.
fn piece_len(rest: &[u8]) -> usize
    ensures value { result ≡ first_len rest.now }
    ensures within { result ≤ length rest.now }
{
    let mut len = 0;
    while len < rest.len() && rest[len] != b'/' {
        len += 1;
    }
    len
}

// What stands behind the first piece and its slash, if there is one.
fn behind(rest: &[u8], len: usize) -> Option<&[u8]>
    requires { len ≡ first_len rest.now }
    ensures pieces { pieces rest.now ≡ take len rest.now ∷ pieces_left (option_copied result) }
    ensures left { left_len (option_copied result) + len ≡ length rest.now }
{
    if len < rest.len() {
        Some(&rest[len + 1..])
    } else {
        None
    }
}

// Whether a piece has more than 255 bytes.
fn is_long(piece: &[u8]) -> bool
    ensures { result ≡ is_long_piece piece.now }
{
    piece.len() > 255
}

// Whether a component has more than 255 bytes.
fn has_long_piece(path: &[u8]) -> bool
    ensures { result ≡ any_is_long (pieces path.now) }
{
    let mut rest = Some(path);
    while let Some(bytes) = rest {
        let len = piece_len(bytes);
        let more = behind(bytes, len);
        if is_long(&bytes[..len]) {
            return true;
        }
        rest = more;
    }
    false
}

// Whether the first byte is a slash.
fn begins_with_slash(path: &[u8]) -> bool
    ensures { result ≡ spec.begins_with_slash path.now }
{
    path.len() > 0 && path[0] == b'/'
}

// Whether a piece is `.` or `..`.
fn is_dots(piece: &[u8]) -> bool
    ensures { result ≡ dots_test piece.now }
{
    piece == b".".as_slice() || piece == b"..".as_slice()
}

// Whether a piece is a component that a walk takes: neither empty nor `.`.
fn is_name(piece: &[u8]) -> bool
    ensures { result ≡ spec.is_name piece.now }
{
    !(piece.is_empty() || piece == b".".as_slice())
}

// The components so far, and the piece where it is one.
fn take_piece<'a>(names: &mut ArrayVec<&'a [u8], 512>, piece: &'a [u8])
    requires { 0 < length piece.now → array_vec_len names.old < 512 }
    ensures names { map (λ name. name.now) names.new.items ≡ map (λ name. name.now) names.old.items ++ filter spec.is_name (piece.now ∷ []) }
    ensures room { 2 * array_vec_len names.new ≤ 2 * array_vec_len names.old + (length piece.now + 1) }
{
    if is_name(piece) {
        names.push(piece);
    }
}

// Whether the last piece that isn't empty is `.` or `..`, after one more piece.
fn dots_after(before: bool, piece: &[u8]) -> bool
    ensures { result ≡ (if is_empty piece.now then before else dots_test piece.now) }
{
    if piece.is_empty() {
        before
    } else {
        is_dots(piece)
    }
}

// The parts of a path that isn't too long.
fn gather(path: &[u8]) -> Parts<'_>
    requires len { length path.now ≤ 1024 }
    requires short { any_is_long (pieces path.now) ≡ false }
    requires text { is_no_text path.now ≡ false }
    ensures { result ≡ parts_of path.now }
{
    let mut names = ArrayVec::new();
    let mut must_dir = false;
    let mut last_dot = false;
    let mut rest = Some(path);
    while let Some(bytes) = rest {
        let len = piece_len(bytes);
        let piece = &bytes[..len];
        take_piece(&mut names, piece);
        must_dir = piece.is_empty() || is_dots(piece);
        last_dot = dots_after(last_dot, piece);
        rest = behind(bytes, len);
    }
    Parts {
        absolute: begins_with_slash(path),
        must_dir,
        last_dot,
        names,
    }
}

// Whether the path is UTF-8.
fn is_utf8(path: &[u8]) -> bool
    ensures { result ≡ text.is_utf8 path.now }
{
    match std::str::from_utf8(path) {
        Ok(_) => true,
        Err(_) => false,
    }
}

// Whether the path is UTF-8 without a zero byte.
fn is_text(path: &[u8]) -> bool
    ensures { result ≡ not (is_no_text path.now) }
{
    is_utf8(path) && !path.contains(&0)
}

/// The parts of a path. The refusals, in their order: `Noent` where the path is empty; `Nametoolong`
/// where it has more than 1,024 bytes or a component more than 255; `Inval` where it isn't UTF-8 or
/// has a zero byte. No memory is taken.
pub fn split(path: &[u8]) -> Result<Parts<'_>, Errno>
    ensures { result ≡ split_path path.now }
{
    if path.is_empty() {
        return Err(Errno::Noent);
    }
    if path.len() > 1024 || has_long_piece(path) {
        return Err(Errno::Nametoolong);
    }
    if !is_text(path) {
        return Err(Errno::Inval);
    }
    Ok(gather(path))
}
