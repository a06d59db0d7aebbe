//! What comes of the bytes of a case.

use std::alloc::{AllocError, Global};
use std::fmt;
use wasm_ast::Module;
use wasm_decode::{Bound, DecodeFault, decode};
use wasm_encode::encode;
use wasm_reading::read;
use wasm_validate::{ValidateFault, validate};

/// What a module is written as.
#[derive(Clone, Copy, PartialEq, Eq)]
pub enum Written {
    /// The bytes that it was read from.
    Same,
    /// Those that the case states.
    Stated,
    /// Neither.
    Otherwise,
    /// Bytes that aren't decoded again, or are written otherwise once more.
    NotReadBack,
}

/// What comes of bytes.
#[derive(Clone, Copy, PartialEq, Eq)]
pub enum Answer {
    /// They spell no module.
    Malformed,
    /// They have floats. Where the case states what they are written as, it is compared.
    Float(Option<Written>),
    /// They pass a limit of decoding.
    Limit(Bound),
    /// They spell a module that isn't valid.
    Invalid(Written),
    /// They spell a valid module.
    Valid(Written),
}

impl fmt::Display for Written {
    fn fmt<W: fmt::Write>(&self, f: &mut fmt::Formatter<W>) -> fmt::Result {
        match self {
            Written::Same => write!(f, "same bytes"),
            Written::Stated => write!(f, "written as stated"),
            Written::Otherwise => write!(f, "written otherwise"),
            Written::NotReadBack => write!(f, "not read back"),
        }
    }
}

/// The name of a limit, as docs/BINARY_FORMAT.md has it.
fn limit_name(bound: Bound) -> &'static str {
    match bound {
        Bound::Length => "length",
        Bound::Types => "types",
        Bound::Functions => "functions",
        Bound::Locals => "locals",
        Bound::Nesting => "nesting",
        Bound::Table => "table",
        Bound::Pages => "pages",
    }
}

impl fmt::Display for Answer {
    fn fmt<W: fmt::Write>(&self, f: &mut fmt::Formatter<W>) -> fmt::Result {
        match self {
            Answer::Malformed => write!(f, "malformed"),
            Answer::Float(None) => write!(f, "float"),
            Answer::Float(Some(written)) => write!(f, "float, {written}"),
            Answer::Limit(bound) => write!(f, "limit {}", limit_name(*bound)),
            Answer::Invalid(written) => write!(f, "invalid, {written}"),
            Answer::Valid(written) => write!(f, "valid, {written}"),
        }
    }
}

/// Whether a module is decoded from what is written of it, and written so again.
fn is_read_back(alloc: Global, bytes: &[u8]) -> Result<bool, AllocError> {
    match decode(alloc, bytes) {
        Ok(again) => Ok(encode(alloc, &again)?.as_slice() == bytes),
        Err(DecodeFault::Memory) => Err(AllocError),
        Err(_) => Ok(false),
    }
}

/// What a module is written as that was read from those bytes.
fn written_as(
    alloc: Global,
    module: &Module,
    bytes: &[u8],
    stated: Option<&[u8]>,
) -> Result<Written, AllocError> {
    let written = encode(alloc, module)?;
    if written.as_slice() == bytes {
        return Ok(Written::Same);
    }
    if !is_read_back(alloc, written.as_slice())? {
        return Ok(Written::NotReadBack);
    }
    match stated {
        Some(stated) if written.as_slice() == stated => Ok(Written::Stated),
        _ => Ok(Written::Otherwise),
    }
}

/// What a module with floats is written as, where that is stated: decoding refuses it, so it is read here.
fn float(alloc: Global, bytes: &[u8], stated: Option<&[u8]>) -> Result<Answer, AllocError> {
    let Some(stated) = stated else {
        return Ok(Answer::Float(None));
    };
    let Ok(module) = read(alloc, bytes) else {
        return Ok(Answer::Float(Some(Written::NotReadBack)));
    };
    if encode(alloc, &module)?.as_slice() == stated {
        Ok(Answer::Float(Some(Written::Stated)))
    } else {
        Ok(Answer::Float(Some(Written::Otherwise)))
    }
}

/// What comes of a module that was read from those bytes.
fn decoded(
    alloc: Global,
    module: Module,
    bytes: &[u8],
    stated: Option<&[u8]>,
) -> Result<Answer, AllocError> {
    let written = written_as(alloc, &module, bytes, stated)?;
    match validate(alloc, module) {
        Ok(_) => Ok(Answer::Valid(written)),
        Err(ValidateFault::Invalid) => Ok(Answer::Invalid(written)),
        Err(ValidateFault::Memory) => Err(AllocError),
    }
}

/// What comes of bytes whose module is stated to be written as others, or isn't.
pub fn answer_of(alloc: Global, bytes: &[u8], stated: Option<&[u8]>) -> Result<Answer, AllocError> {
    match decode(alloc, bytes) {
        Ok(module) => decoded(alloc, module, bytes, stated),
        Err(DecodeFault::Malformed) => Ok(Answer::Malformed),
        Err(DecodeFault::Float) => float(alloc, bytes, stated),
        Err(DecodeFault::Limit(bound)) => Ok(Answer::Limit(bound)),
        Err(DecodeFault::Memory) => Err(AllocError),
    }
}
