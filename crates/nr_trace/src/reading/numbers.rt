//! Numbers at the front of bytes, and the bytes after them.

ghost use Rattle.std.specs.Prelude.{◌≡◌, ◌≤◌, ◌++◌, length};
ghost use Rattle.std.specs.Int.{w8, w16, w32, w64, to_be_bytes};

pub(crate) fn take_u8(bytes: &[u8]) -> (u8, &[u8])
    requires { 1 ≤ length bytes.now }
    ensures { bytes.now ≡ to_be_bytes w8 result.0 ++ result.1.now }
{
    let (front, rest) = bytes.split_at(1);
    (u8::from_be_bytes([front[0]]), rest)
}

pub(crate) fn take_u16(bytes: &[u8]) -> (u16, &[u8])
    requires { 2 ≤ length bytes.now }
    ensures { bytes.now ≡ to_be_bytes w16 result.0 ++ result.1.now }
{
    let (front, rest) = bytes.split_at(2);
    (u16::from_be_bytes([front[0], front[1]]), rest)
}

pub(crate) fn take_u32(bytes: &[u8]) -> (u32, &[u8])
    requires { 4 ≤ length bytes.now }
    ensures { bytes.now ≡ to_be_bytes w32 result.0 ++ result.1.now }
{
    let (front, rest) = bytes.split_at(4);
    let number = u32::from_be_bytes([front[0], front[1], front[2], front[3]]);
    (number, rest)
}

pub(crate) fn take_u64(bytes: &[u8]) -> (u64, &[u8])
    requires { 8 ≤ length bytes.now }
    ensures { bytes.now ≡ to_be_bytes w64 result.0 ++ result.1.now }
{
    let (front, rest) = bytes.split_at(8);
    let number = u64::from_be_bytes([
        front[0], front[1], front[2], front[3], front[4], front[5], front[6], front[7],
    ]);
    (number, rest)
}
