//! Stores whose table has its rows in a subnode, and what is answered of each.

use super::{Block, Row};
use pst_make::Change;
use pst_make::Change::Set;

// Rows of 2,000 bytes, whose numbers do not rise, in one block; the cell of the last one is not there.
const IN_ONE_BLOCK: Row<'static> = Row {
    changes: &[
        Set(18, &[0xcf, 7, 0xd0, 7]),
        Set(54, &[2]),
        Set(62, &[0]),
        Set(70, &[1]),
    ],
    blocks: &[Block {
        bid: 8,
        len: 6000,
        changes: &[
            Set(0, &[2]),
            Set(1999, &[0x80]),
            Set(2000, &[3]),
            Set(4000, &[1]),
            Set(5999, &[0x80]),
        ],
    }],
    lists: &[],
    data: 8,
    line: "yes, 1 4c32 67f20003 4 5c20 1, 2 4c3a 67f20003 4 4c80 2, 3 4c42",
};

// Rows of 4,000 bytes: two in a block, which has 176 more. Then the third row begins with another identifier; then its block is
// a byte too short.
const ROWS_OF_4000: Change<'static> = Set(18, &[0x9f, 0xf, 0xa0, 0xf]);

const TWO_ROWS: Block<'static> = Block {
    bid: 8,
    len: 8176,
    changes: &[
        Set(0, &[1]),
        Set(3999, &[0x80]),
        Set(4000, &[2]),
        Set(7999, &[0x80]),
        Set(8000, &[3]),
    ],
};

const THIRD_ROW: Block<'static> = Block {
    bid: 12,
    len: 4000,
    changes: &[Set(0, &[3]), Set(3999, &[0x80])],
};

const ANOTHER_ROW: Block<'static> = Block {
    bid: 12,
    len: 4000,
    changes: &[Set(0, &[4])],
};

const SHORT_ROW: Block<'static> = Block {
    bid: 12,
    len: 3999,
    changes: &[Set(0, &[3])],
};

const TWO_BLOCKS: [u8; 24] = [
    1, 1, 2, 0, 0x90, 0x2f, 0, 0, 8, 0, 0, 0, 0, 0, 0, 0, 12, 0, 0, 0, 0, 0, 0, 0,
];

const ONE_BYTE_LESS: [u8; 24] = [
    1, 1, 2, 0, 0x8f, 0x2f, 0, 0, 8, 0, 0, 0, 0, 0, 0, 0, 12, 0, 0, 0, 0, 0, 0, 0,
];

const AT_THIRD: &str = "no: 25 Table at 0x4c42 bid 0x4 nid 0x21";

pub(super) const IN_TWO_BLOCKS: [Row<'static>; 3] = [
    Row {
        changes: &[ROWS_OF_4000],
        blocks: &[TWO_ROWS, THIRD_ROW],
        lists: &[(18, &TWO_BLOCKS)],
        data: 18,
        line: "yes, 1 4c32 67f20003 4 4c80 1, 2 4c3a 67f20003 4 5c20 2, 3 4c42 67f20003 4 6c80 3",
    },
    Row {
        changes: &[ROWS_OF_4000],
        blocks: &[TWO_ROWS, ANOTHER_ROW],
        lists: &[(18, &TWO_BLOCKS)],
        data: 18,
        line: AT_THIRD,
    },
    Row {
        changes: &[ROWS_OF_4000],
        blocks: &[TWO_ROWS, SHORT_ROW],
        lists: &[(18, &ONE_BYTE_LESS)],
        data: 18,
        line: AT_THIRD,
    },
];

// Rows of 4,088 bytes, two of which fill a block.
const FULL_BLOCK: Row<'static> = Row {
    changes: &[Set(18, &[0xf7, 0xf, 0xf8, 0xf])],
    blocks: &[
        Block {
            bid: 8,
            len: 8176,
            changes: &[
                Set(0, &[1]),
                Set(4087, &[0x80]),
                Set(4088, &[2]),
                Set(8175, &[0x80]),
            ],
        },
        Block {
            bid: 12,
            len: 4088,
            changes: &[Set(0, &[3]), Set(4087, &[0x80])],
        },
    ],
    lists: &[(
        18,
        &[
            1, 1, 2, 0, 0xe8, 0x2f, 0, 0, 8, 0, 0, 0, 0, 0, 0, 0, 12, 0, 0, 0, 0, 0, 0, 0,
        ],
    )],
    data: 18,
    line: "yes, 1 4c32 67f20003 4 4c80 1, 2 4c3a 67f20003 4 5c78 2, 3 4c42 67f20003 4 6c80 3",
};

// Rows of 8,176 bytes, a block each, below an XXBLOCK: two of them below its first XBLOCK, and one below its second.
const TWO_XBLOCKS: [(u64, &[u8]); 3] = [
    (
        18,
        &[
            1, 1, 2, 0, 0xe0, 0x3f, 0, 0, 8, 0, 0, 0, 0, 0, 0, 0, 12, 0, 0, 0, 0, 0, 0, 0,
        ],
    ),
    (22, &[1, 1, 1, 0, 0xf0, 0x1f, 0, 0, 16, 0, 0, 0, 0, 0, 0, 0]),
    (
        26,
        &[
            1, 2, 2, 0, 0xd0, 0x5f, 0, 0, 18, 0, 0, 0, 0, 0, 0, 0, 22, 0, 0, 0, 0, 0, 0, 0,
        ],
    ),
];

const LONGEST_ROWS: Row<'static> = Row {
    changes: &[Set(18, &[0xef, 0x1f, 0xf0, 0x1f])],
    blocks: &[
        Block {
            bid: 8,
            len: 8176,
            changes: &[Set(0, &[1]), Set(8175, &[0x80])],
        },
        Block {
            bid: 12,
            len: 8176,
            changes: &[Set(0, &[2]), Set(8175, &[0x80])],
        },
        Block {
            bid: 16,
            len: 8176,
            changes: &[Set(0, &[3]), Set(8175, &[0x80])],
        },
    ],
    lists: &TWO_XBLOCKS,
    data: 26,
    line: "yes, 1 4c32 67f20003 4 4c80 1, 2 4c3a 67f20003 4 6c80 2, 3 4c42 67f20003 4 8c80 3",
};

// The same, where the numbers of the rows do not rise: the last block, then the first, then the second.
const LONGEST_ROWS_SHUFFLED: Row<'static> = Row {
    changes: &[
        Set(18, &[0xef, 0x1f, 0xf0, 0x1f]),
        Set(54, &[2]),
        Set(62, &[0]),
        Set(70, &[1]),
    ],
    blocks: &[
        Block {
            bid: 8,
            len: 8176,
            changes: &[Set(0, &[2]), Set(8175, &[0x80])],
        },
        Block {
            bid: 12,
            len: 8176,
            changes: &[Set(0, &[3]), Set(8175, &[0x80])],
        },
        Block {
            bid: 16,
            len: 8176,
            changes: &[Set(0, &[1]), Set(8175, &[0x80])],
        },
    ],
    lists: &TWO_XBLOCKS,
    data: 26,
    line: "yes, 1 4c32 67f20003 4 8c80 1, 2 4c3a 67f20003 4 4c80 2, 3 4c42 67f20003 4 6c80 3",
};

// Rows of 4 bytes, 2,044 to a block, in a table without columns: the first, the last of a block, and the one behind it.
const SHORTEST_ROWS: Row<'static> = Row {
    changes: &[Set(13, &[0]), Set(62, &[0xfb, 7]), Set(70, &[0xfc, 7])],
    blocks: &[
        Block {
            bid: 8,
            len: 8176,
            changes: &[Set(0, &[1]), Set(8172, &[2])],
        },
        Block {
            bid: 12,
            len: 4,
            changes: &[Set(0, &[3])],
        },
    ],
    lists: &[(
        18,
        &[
            1, 1, 2, 0, 0xf4, 0x1f, 0, 0, 8, 0, 0, 0, 0, 0, 0, 0, 12, 0, 0, 0, 0, 0, 0, 0,
        ],
    )],
    data: 18,
    line: "yes, 1 4c32, 2 4c3a, 3 4c42",
};

// Rows of each of these lengths.
pub(super) const OF_ALL_LENGTHS: [Row<'static>; 5] = [
    IN_ONE_BLOCK,
    FULL_BLOCK,
    LONGEST_ROWS,
    LONGEST_ROWS_SHUFFLED,
    SHORTEST_ROWS,
];
