// Comments: WebAssembly Core 1.0, section 6.2.4.
ghost use Rattle.std.specs.Prelude.{◌≡◌, ◌<◌, ◌≤◌, ◌+◌, ◌^◌, ◌==◌, ◌&&◌, length, drop, slice_index, not, IfSome};
ghost use Rattle.std.specs.List.{prefix_len};
ghost use Rattle.std.specs.Option.{option_map};
ghost use Rattle.wat_tokens.specs.Tokens.{comment_length};

/// How many bytes a text has in front of the first byte of this value; all where it has none.
pub(crate) fn length_before(text: &[u8], end: u8) -> usize
    ensures value { result ≡ prefix_len (λ byte. not (byte == end)) text.now }
    ensures bound { result ≤ length text.now }
{
    for (i, byte) in text.iter().enumerate() {
        if *byte == end {
            return i;
        }
    }
    text.len()
}

/// A place in a block comment.
#[derive(Clone, Copy)]
struct Within {
    /// How many comments are open there.
    open_comments: usize,
    /// How many bytes are in front of it.
    at: usize,
}

/// Whether these two bytes stand at a place of a text.
fn has_pair(text: &[u8], at: usize, first: u8, second: u8) -> bool
    requires { at + 1 < length text.now }
    ensures { result ≡ (slice_index text.now at == first && slice_index text.now (at + 1) == second) }
{
    text[at] == first && text[at + 1] == second
}

/// A place further in a text: behind `(;`, `;)` or one byte.
fn further(text: &[u8], place: Within) -> Within
    requires within { place.at + 1 < length text.now }
    requires low { 1 ≤ place.open_comments }
    requires high { place.open_comments + place.at < 2 ^ 32 }
    ensures length { option_map (λ n. place.at + n) (comment_length place.open_comments (drop place.at text.now)) ≡ option_map (λ n. result.at + n) (comment_length result.open_comments (drop result.at text.now)) }
    ensures within { result.at ≤ length text.now }
    ensures forward { place.at < result.at }
    ensures few { result.open_comments + place.at ≤ place.open_comments + result.at }
{
    if has_pair(text, place.at, b';', b')') {
        return Within {
            open_comments: place.open_comments - 1,
            at: place.at + 2,
        };
    }
    if has_pair(text, place.at, b'(', b';') {
        return Within {
            open_comments: place.open_comments + 1,
            at: place.at + 2,
        };
    }
    Within {
        open_comments: place.open_comments,
        at: place.at + 1,
    }
}

/// How many bytes a text has up to the end of a block comment whose `(;` is in front of it. `None` where the comment doesn't end.
pub(crate) fn comment_length(text: &[u8]) -> Option<usize>
    requires { length text.now < 2 ^ 31 }
    ensures value { result ≡ comment_length 1 text.now }
    ensures bound { IfSome result (λ count. count ≤ length text.now) }
{
    let mut place = Within {
        open_comments: 1,
        at: 0,
    };
    while place.at + 1 < text.len() {
        place = further(text, place);
        if place.open_comments == 0 {
            return Some(place.at);
        }
    }
    None
}
