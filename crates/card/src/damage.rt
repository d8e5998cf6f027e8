// Ways to damage a card.
use blocks::Block;

// One byte that is overwritten: what that means, the block, the byte, and its new value.
#[derive(Clone, Copy)]
pub(crate) struct Damage(pub(crate) &'static str, usize, usize, u8);

impl Damage {
    // A copy of the table with this damage.
    pub(crate) fn done_to(&self, table: &[Block; 128]) -> [Block; 128] {
        let Damage(_, block, byte, value) = *self;
        let mut damaged = *table;
        if block < 128 && byte < 64 {
            damaged[block][byte] = value;
        }
        damaged
    }
}

// Made for the small card: inode 1 has two links and a pointer to block 5, and slots 0 and 1 hold A and B.
pub(crate) const DAMAGES: [Damage; 23] = [
    Damage("another letter in the head", 0, 1, b'X'),
    Damage("no zero after the letters", 0, 3, 1),
    Damage("version 2", 0, 4, 2),
    Damage("9 blocks in the head", 0, 6, 9),
    Damage("6 inodes in the head", 0, 8, 6),
    Damage("no directory block in the head", 0, 10, 0),
    Damage("a directory that leaves no data area", 0, 10, 4),
    Damage("a byte after the head's fields", 0, 63, 1),
    Damage("inode 0 not marked", 1, 0, 0x02),
    Damage("inode 4 of 4 marked", 1, 0, 0x13),
    Damage("the directory block not marked", 2, 0, 0x2f),
    Damage("block 511 marked", 2, 63, 0x80),
    Damage("inode 0 in use", 3, 0, 1),
    Damage("an inode of kind 2", 3, 16, 2),
    Damage("a file whose inode is not marked", 1, 0, 0x01),
    Damage("a pointer into the directory", 3, 20, 4),
    Damage("a pointer past the last block", 3, 20, 8),
    Damage("a pointer to a block that is not marked", 2, 0, 0x1f),
    Damage("two pointers to one block", 3, 22, 5),
    Damage("a name with a blank", 4, 2, b' '),
    Damage("a name that leads to an absent inode", 4, 0, 3),
    Damage("two slots with one name", 4, 18, b'A'),
    Damage("fewer links than names", 3, 18, 1),
];
