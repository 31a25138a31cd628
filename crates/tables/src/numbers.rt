// 16-bit numbers in bytes, low byte first.
ghost use Rattle.std.specs.Prelude.{◌≡◌, ◌+◌, ◌*◌, ◌<◌, length};
ghost use Rattle.tables.specs.Numbers.{put_at, u16_at, u16_bytes};

// The number whose two bytes are given.
pub fn u16_of(low: u8, high: u8) -> u16
    ensures { result ≡ low + 256 * high }
{
    u16::from_le_bytes([low, high])
}

// The number at byte `at` of a slice that holds both its bytes.
pub fn u16_at(bytes: &[u8], at: usize) -> u16
    requires { at + 1 < length bytes.now }
    ensures { result ≡ u16_at bytes.now at }
{
    u16_of(bytes[at], bytes[at + 1])
}

// The number at byte `at` of any slice: what stands beyond the end is 0.
pub fn u16_or_zero(bytes: &[u8], at: usize) -> u16
    ensures { result ≡ u16_at bytes.now at }
{
    match bytes.get(at..) {
        None => 0,
        Some([]) => 0,
        Some([low]) => u16_of(*low, 0),
        Some([low, high, ..]) => u16_of(*low, *high),
    }
}

// Writes a number at byte `at` of a slice that has room for both its bytes.
pub fn put_u16(buffer: &mut [u8], at: usize, value: u16)
    requires { at + 1 < length buffer.old }
    ensures { buffer.new ≡ put_at buffer.old at (u16_bytes value) }
{
    buffer[at..at + 2].copy_from_slice(&value.to_le_bytes());
}
