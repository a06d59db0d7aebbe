// Numbers of a width in the bytes of a memory, the lowest byte first (WebAssembly Core 1.0, 4.3.1).
ghost use Rattle.std.specs.Prelude.{◌≡◌, ◌<◌, ◌≤◌, ◌*◌, ◌^◌, ◌++◌, length, take, drop};
ghost use Rattle.int_ops.specs.Atomic.{IsAccessWidth};
ghost use Rattle.linear_memory.specs.Storage.{number_of, bytes_of};

use byteorder::{ByteOrder, LittleEndian};

/// The number in the first `width` bytes.
#[inline(always)]
pub fn read_number(bytes: &[u8], width: u8) -> u64
    requires access { IsAccessWidth width }
    requires within { width ≤ length bytes.now }
    ensures value { result ≡ number_of (take width bytes.now) }
    ensures fits { result < 2 ^ (8 * width) }
{
    match width {
        1 => u64::from(bytes[0]),
        2 => u64::from(LittleEndian::read_u16(bytes)),
        4 => u64::from(LittleEndian::read_u32(bytes)),
        _ => LittleEndian::read_u64(bytes),
    }
}

/// Puts the low `width` bytes of a number first.
#[inline(always)]
pub fn write_number(bytes: &mut [u8], width: u8, number: u64)
    requires access { IsAccessWidth width }
    requires within { width ≤ length bytes.old }
    ensures { bytes.new ≡ bytes_of width number ++ drop width bytes.old }
{
    match width {
        1 => bytes[0] = (number % 0x100) as u8,
        2 => LittleEndian::write_u16(bytes, (number % 0x1_0000) as u16),
        4 => LittleEndian::write_u32(bytes, (number % 0x1_0000_0000) as u32),
        _ => LittleEndian::write_u64(bytes, number),
    }
}
