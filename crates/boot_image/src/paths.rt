// The paths that an image may have.
ghost use Rattle.std.specs.Prelude.{◌≡◌, ◌∷◌, ◌++◌, List, ℕ, MatchOption};
ghost use Rattle.boot_image.specs.Image.{is_plain, plain_parts};

use path_walk::{Parts, split};

/// The bytes behind this front, where they begin with it.
pub(crate) fn without<'a>(bytes: &'a [u8], front: &[u8]) -> Option<&'a [u8]>
    ensures { MatchOption result ((rest : List ℕ) → bytes.now ≡ front.now ++ rest → ⊥) (λ rest. bytes.now ≡ front.now ++ rest.now) }
{
    bytes.strip_prefix(front)
}

// the bytes behind a slash and this name, where they begin so
fn behind<'a>(bytes: &'a [u8], name: &[u8]) -> Option<&'a [u8]>
    ensures { MatchOption result ((rest : List ℕ) → bytes.now ≡ 47 ∷ (name.now ++ rest) → ⊥) (λ rest. bytes.now ≡ 47 ∷ (name.now ++ rest.now)) }
{
    match without(bytes, b"/") {
        Some(rest) => match without(rest, name) {
            Some(left) => Some(left),
            None => None,
        },
        None => None,
    }
}

// whether the path is just its names, and `..` is none of them
#[tactic(auto, using(crate::proofs::PlainPaths::other_name, crate::proofs::PlainPaths::this_name))]
fn is_plain(path: &[u8], parts: &Parts<'_>) -> bool
    ensures { result ≡ is_plain path.now parts.now }
{
    let mut rest = path;
    for index in 0..parts.len() {
        let name = parts.name(index);
        if name == b"..".as_slice() {
            return false;
        }
        match behind(rest, name) {
            Some(left) => rest = left,
            None => return false,
        }
    }
    rest.is_empty()
}

/// The parts of a path that an image may have, and `None` where it may not. Such a path is absolute; it has no empty, `.` or
/// `..` component and no slash at its end; it has at most 1,024 bytes and at most 255 in a component; it is UTF-8 and has no
/// zero byte. No memory is taken.
#[tactic(auto, unfolding(crate::specs::Image::plain_parts))]
pub fn plain_parts(path: &[u8]) -> Option<Parts<'_>>
    ensures { result ≡ plain_parts path.now }
{
    match split(path) {
        Ok(parts) => {
            if is_plain(path, &parts) {
                Some(parts)
            } else {
                None
            }
        }
        Err(_) => None,
    }
}
