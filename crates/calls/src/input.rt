// What the script holds, little-endian, read as it comes: None where it is cut.
use std::io::Read;

// The next N bytes.
pub(crate) fn bytes<const N: usize>(script: &mut impl Read) -> Option<[u8; N]> {
    let mut read = [0u8; N];
    script.read_exact(&mut read).ok()?;
    Some(read)
}

// u32
pub(crate) fn word(script: &mut impl Read) -> Option<u32> {
    Some(u32::from_le_bytes(bytes(script)?))
}

// u64
pub(crate) fn number(script: &mut impl Read) -> Option<u64> {
    Some(u64::from_le_bytes(bytes(script)?))
}

// u16 length, bytes: the front of the buffer, into which they are read.
pub(crate) fn counted<'a>(script: &mut impl Read, buffer: &'a mut [u8; 65536]) -> Option<&'a [u8]> {
    let length = u16::from_le_bytes(bytes(script)?);
    let front = &mut buffer[..usize::from(length)];
    script.read_exact(front).ok()?;
    Some(front)
}
