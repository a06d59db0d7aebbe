// Numbers: WebAssembly Core 1.0, section 5.2.2.
ghost use Rattle.std.specs.Prelude.{◌≡◌, ◌<◌, ◌++◌, OnOk};
ghost use Rattle.wasm_ast.specs.Shortest.{shortest_unsigned, shortest_signed, is_small, low_bits};

use std::alloc::AllocError;

/// Appends an unsigned number in the fewest bytes (`uN`).
pub(crate) fn write_unsigned(out: &mut Vec<u8>, number: u64) -> Result<(), AllocError>
    ensures { OnOk result (out.new.items ≡ out.old.items ++ shortest_unsigned number) }
{
    let mut rest = number;
    'bytes: while rest >= 128 {
        out.push((128 + rest % 128) as u8)?;
        rest /= 128;
    }
    out.push(rest as u8)?;
    Ok(())
}

/// Whether one byte spells a signed number.
fn is_small(number: i64) -> bool
    ensures { result ≡ is_small number }
{
    -64 <= number && number < 64
}

/// The lowest seven bits of a signed number.
fn low_bits(number: i64) -> u8
    ensures value { result ≡ low_bits number }
    ensures below { result < 128 }
{
    number.rem_euclid(128) as u8
}

/// Appends a signed number in the fewest bytes (`sN`).
pub(crate) fn write_signed(out: &mut Vec<u8>, number: i64) -> Result<(), AllocError>
    ensures { OnOk result (out.new.items ≡ out.old.items ++ shortest_signed number) }
{
    let mut rest = number;
    'bytes: while !is_small(rest) {
        out.push(128 + low_bits(rest))?;
        rest = rest.div_euclid(128);
    }
    out.push(low_bits(rest))?;
    Ok(())
}
