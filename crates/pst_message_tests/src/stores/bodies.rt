//! Bodies of blocks.

/// A property context ([MS-PST] 2.3.3) with no properties.
pub const PLAIN: [u8; 28] = [
    20, 0, 0xec, 0xbc, 0x20, 0, 0, 0, 0, 0, 0, 0, //
    0xb5, 2, 6, 0, 0, 0, 0, 0, //
    1, 0, 0, 0, 12, 0, 20, 0,
];

/// The properties of an attachment that embeds a message ([MS-PST] 2.4.6.2): 3701 of type 000D names subnode 0x200024, and 3705 is 5.
pub const EMBEDS: [u8; 56] = [
    44, 0, 0xec, 0xbc, 0x20, 0, 0, 0, 0, 0, 0, 0, //
    0xb5, 2, 6, 0, 0x40, 0, 0, 0, //
    1, 0x37, 0x0d, 0, 0x60, 0, 0, 0, //
    5, 0x37, 3, 0, 5, 0, 0, 0, //
    0x24, 0, 0x20, 0, 100, 0, 0, 0, //
    3, 0, 0, 0, 12, 0, 20, 0, 36, 0, 44, 0,
];

/// Those of one that says so, but has no 3701.
pub const NAMES_NOTHING: [u8; 38] = [
    28, 0, 0xec, 0xbc, 0x20, 0, 0, 0, 0, 0, 0, 0, //
    0xb5, 2, 6, 0, 0x40, 0, 0, 0, //
    5, 0x37, 3, 0, 5, 0, 0, 0, //
    2, 0, 0, 0, 12, 0, 20, 0, 28, 0,
];
