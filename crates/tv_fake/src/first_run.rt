//! The run that tests of every layer begin with: an image that puts `A` to the debug port and switches the machine off, on
//! one hart. It is that of `guests/hello`.

/// The image by its instructions.
pub const IMAGE_WORDS: [u32; 7] = [
    0x100002b7, 0x04100313, 0x00628023, 0x001002b7, 0x00005337, 0x55530313, 0x0062a023,
];

/// The image by its bytes.
pub const IMAGE: [u8; 28] = [
    0xb7, 0x02, 0x00, 0x10, 0x13, 0x03, 0x10, 0x04, 0x23, 0x80, 0x62, 0x00, 0xb7, 0x02, 0x10, 0x00,
    0x37, 0x53, 0x00, 0x00, 0x13, 0x03, 0x53, 0x55, 0x23, 0xa0, 0x62, 0x00,
];

/// What the run puts.
pub const OUTPUT: &str = "A";

/// The file of its journal: seven events of hart 0.
pub const JOURNAL: [u8; 15] = [
    b'T', b'V', b'J', b'1', 0x01, 0, 7, 0, 0, 0, 0x00, 1, 0, 0, 0,
];
