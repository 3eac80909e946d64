//! Forged table files of 80 bytes, by their first bytes: a single value for each side.

/// A queen wins, and loses for the other side.
pub const QUEEN: [u8; 14] = [
    0x71, 0xE8, 0x23, 0x5D, 0x01, 0x00, 0x66, 0x55, 0xEE, 0x00, 0x80, 0x04, 0x80, 0x00,
];

/// A queen's distances for white to move: 9 plies, by a value map for wins.
pub const QUEEN_PLIES: [u8; 17] = [
    0xD7, 0x66, 0x0C, 0xA5, 0x01, 0x00, 0x06, 0x05, 0x0E, 0x00, 0x86, 0x00, 0x01, 0x09, 0x00, 0x00,
    0x00,
];

/// The whole file of such a front, with zeros behind it; of a longer one the first 80 bytes.
pub fn file_of(front: &[u8]) -> [u8; 80] {
    let mut file = [0u8; 80];
    let length = front.len().min(80);
    file[..length].copy_from_slice(&front[..length]);
    file
}
