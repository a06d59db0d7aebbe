// The names of numeric instructions behind their type: WebAssembly Core 1.0, section A.7.
ghost use Rattle.std.specs.Prelude.{◌≡◌, ◌≢◌, MatchOption};
ghost use Rattle.wasm_ast.specs.declared.instr.ConvertOp.{ConvertOp};
ghost use Rattle.wasm_ast.specs.declared.instr.CompareOp.{CompareOp};
ghost use Rattle.wasm_ast.specs.declared.instr.UnaryOp.{UnaryOp};
ghost use Rattle.wasm_ast.specs.declared.instr.BinaryOp.{BinaryOp};
ghost use Rattle.wasm_ast.specs.declared.instr.NumericOp.{NumericOp};
ghost use Rattle.wat_names.specs.Names.{compare_word, unary_word, binary_word, convert_type, convert_word, numeric_type, numeric_word};

use wasm_ast::{BinaryOp, CompareOp, ConvertOp, IntType, NumericOp, UnaryOp};

/// The comparison of a word.
fn compare_named(word: &[u8]) -> Option<CompareOp>
    ensures { MatchOption result ((op : CompareOp) → compare_word op ≢ word.now) (λ op. compare_word op ≡ word.now) }
{
    match word {
        b"eq" => Some(CompareOp::Eq),
        b"ne" => Some(CompareOp::Ne),
        b"lt_s" => Some(CompareOp::LtS),
        b"lt_u" => Some(CompareOp::LtU),
        b"gt_s" => Some(CompareOp::GtS),
        b"gt_u" => Some(CompareOp::GtU),
        b"le_s" => Some(CompareOp::LeS),
        b"le_u" => Some(CompareOp::LeU),
        b"ge_s" => Some(CompareOp::GeS),
        b"ge_u" => Some(CompareOp::GeU),
        _ => None,
    }
}

/// The operator on one number of a word.
fn unary_named(word: &[u8]) -> Option<UnaryOp>
    ensures { MatchOption result ((op : UnaryOp) → unary_word op ≢ word.now) (λ op. unary_word op ≡ word.now) }
{
    match word {
        b"clz" => Some(UnaryOp::Clz),
        b"ctz" => Some(UnaryOp::Ctz),
        b"popcnt" => Some(UnaryOp::Popcnt),
        _ => None,
    }
}

/// The operator on two numbers of a word.
fn binary_named(word: &[u8]) -> Option<BinaryOp>
    ensures { MatchOption result ((op : BinaryOp) → binary_word op ≢ word.now) (λ op. binary_word op ≡ word.now) }
{
    match word {
        b"add" => Some(BinaryOp::Add),
        b"sub" => Some(BinaryOp::Sub),
        b"mul" => Some(BinaryOp::Mul),
        b"div_s" => Some(BinaryOp::DivS),
        b"div_u" => Some(BinaryOp::DivU),
        b"rem_s" => Some(BinaryOp::RemS),
        b"rem_u" => Some(BinaryOp::RemU),
        b"and" => Some(BinaryOp::And),
        b"or" => Some(BinaryOp::Or),
        b"xor" => Some(BinaryOp::Xor),
        b"shl" => Some(BinaryOp::Shl),
        b"shr_s" => Some(BinaryOp::ShrS),
        b"shr_u" => Some(BinaryOp::ShrU),
        b"rotl" => Some(BinaryOp::Rotl),
        b"rotr" => Some(BinaryOp::Rotr),
        _ => None,
    }
}

/// The conversion of a word behind a type.
fn convert_named(of: IntType, word: &[u8]) -> Option<ConvertOp>
    ensures { MatchOption result ((op : ConvertOp) → convert_type op ≡ of → convert_word op ≢ word.now) (λ op. (convert_type op ≡ of) × (convert_word op ≡ word.now)) }
{
    match of {
        IntType::I32 => match word {
            b"wrap_i64" => Some(ConvertOp::Wrap),
            _ => None,
        },
        IntType::I64 => match word {
            b"extend_i32_s" => Some(ConvertOp::ExtendS),
            b"extend_i32_u" => Some(ConvertOp::ExtendU),
            _ => None,
        },
    }
}

/// The numeric instruction of a word behind a type.
pub(crate) fn numeric_named(of: IntType, word: &[u8]) -> Option<NumericOp>
    ensures { MatchOption result ((op : NumericOp) → numeric_type op ≡ of → numeric_word op ≢ word.now) (λ op. (numeric_type op ≡ of) × (numeric_word op ≡ word.now)) }
{
    if matches!(word, b"eqz") {
        return Some(NumericOp::Eqz(of));
    }
    if let Some(op) = binary_named(word) {
        return Some(NumericOp::Binary(of, op));
    }
    if let Some(op) = compare_named(word) {
        return Some(NumericOp::Compare(of, op));
    }
    if let Some(op) = unary_named(word) {
        return Some(NumericOp::Unary(of, op));
    }
    match convert_named(of, word) {
        Some(op) => Some(NumericOp::Convert(op)),
        None => None,
    }
}
