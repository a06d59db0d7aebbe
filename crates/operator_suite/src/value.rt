//! What an operator gives.

use int_ops::Cause;
use std::fmt;

/// A value, or the cause of a trap.
#[derive(Clone, Copy)]
pub enum Value {
    I32(u32),
    I64(u64),
    Trap(Cause),
}

impl Value {
    /// What an operator that may trap gives.
    pub fn of_32(outcome: Result<u32, Cause>) -> Value {
        match outcome {
            Ok(value) => Value::I32(value),
            Err(cause) => Value::Trap(cause),
        }
    }

    /// The same of 64 bits.
    pub fn of_64(outcome: Result<u64, Cause>) -> Value {
        match outcome {
            Ok(value) => Value::I64(value),
            Err(cause) => Value::Trap(cause),
        }
    }
}

impl fmt::Display for Value {
    fn fmt<W: fmt::Write>(&self, f: &mut fmt::Formatter<W>) -> fmt::Result {
        match self {
            Value::I32(value) => write!(f, "{value:08x}"),
            Value::I64(value) => write!(f, "{value:016x}"),
            Value::Trap(Cause::DivideByZero) => write!(f, "divide by zero"),
            Value::Trap(Cause::Overflow) => write!(f, "overflow"),
            Value::Trap(_) => write!(f, "another trap"),
        }
    }
}
