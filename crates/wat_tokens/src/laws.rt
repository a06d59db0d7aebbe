// Laws of tokens and strings.
ghost use Rattle.std.specs.Prelude.{◌≡◌, ◌≢◌, ◌+◌, ◌==◌, ◌++◌, ℕ, List, ◌∷◌, count_by, take, drop, Some, None, Err};
ghost use Rattle.std.specs.Option.{option_map};
ghost use Rattle.wat_tokens.specs.Strings.{Spelled, element, string};
ghost use Rattle.wat_tokens.specs.Tokens.{Piece, first, behind_piece, tokens_from};

/// The tokens of a text are that of the piece at its front, if it is one, and then those of what is behind the piece, in the line to
/// which the piece leads. Where no piece stands at the front of a text that isn't empty, its line is that of the fault.
pub fn tokens_are_pieces()
    ensures piece { (line : ℕ) (text : List ℕ) (piece : Piece) → first line text ≡ Some piece → tokens_from 0 line text ≡ behind_piece piece.token (tokens_from 0 (line + count_by (λ byte. byte == 10) (take piece.length text)) (drop piece.length text)) }
    ensures fault { (line byte : ℕ) (rest : List ℕ) → first line (byte ∷ rest) ≡ None → tokens_from 0 line (byte ∷ rest) ≡ Err line }
{}

/// What a string stands for is what its first element stands for, and then what the rest of it does. A string ends at a quote, and
/// elsewhere it begins with an element.
pub fn strings_are_elements()
    ensures element { (byte : ℕ) (rest : List ℕ) (e : Spelled) → byte ≢ 34 → element byte rest ≡ Some e → string (byte ∷ rest) ≡ option_map (λ s. record { length = s.length + e.length; bytes = e.bytes ++ s.bytes }) (string (drop e.length (byte ∷ rest))) }
    ensures fault { (byte : ℕ) (rest : List ℕ) → byte ≢ 34 → element byte rest ≡ None → string (byte ∷ rest) ≡ None }
{}
