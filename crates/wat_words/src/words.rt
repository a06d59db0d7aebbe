// Words and identifiers: WebAssembly Core 1.0, section 6.3.
ghost use Rattle.std.specs.Prelude.{◌≡◌};
ghost use Rattle.wat_words.specs.Words.{is_identifier, is_word_byte};

/// Whether a byte is an identifier character (6.3.5): a visible character of ASCII but `"`, `,`, `;` and the
/// brackets `()[]{}`. A word is a run of them.
pub fn is_word_byte(byte: u8) -> bool
    ensures { result ≡ is_word_byte byte }
{
    match byte {
        b'"' | b'(' | b')' | b',' | b';' | b'[' | b']' | b'{' | b'}' => false,
        _ => 33 <= byte && byte <= 126,
    }
}

/// Whether a word is an identifier (6.3.5): `$` and at least one character more.
pub fn is_identifier(word: &[u8]) -> bool
    ensures { result ≡ is_identifier word.now }
{
    1 < word.len() && word[0] == b'$'
}
