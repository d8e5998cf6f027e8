// The inode of a file, and its 16 bytes.
ghost use Rattle.std.specs.Prelude.{◌≡◌, false, length, MatchResult};
ghost use Rattle.layout.specs.Inodes.{is_file, IsFile};

use crate::malformed::Malformed;
use blocks::{Quarter, high, low, word};
use std::array::from_fn;

// The kind of a file's inode.
pub const FILE: u8 = 1;

// The inode of a file. A pointer of 0 leads to no block.
#[derive(Clone, Copy, Debug, PartialEq, Eq)]
pub struct Inode {
    pub links: u16,
    pub pointers: [u16; 6],
    ghost six: { length pointers ≡ 6 },
}

// The 16 bytes of a file's inode; read again they tell the same.
impl From<&Inode> for Quarter {
    ghost from_gives = { λ inode bytes. IsFile inode.now.links inode.now.pointers bytes };

    fn from(inode: &Inode) -> Quarter {
        let n = inode.links;
        let [a, b, c, d, e, f] = inode.pointers;
        [
            FILE,
            0,
            low(n),
            high(n),
            low(a),
            high(a),
            low(b),
            high(b),
            low(c),
            high(c),
            low(d),
            high(d),
            low(e),
            high(e),
            low(f),
            high(f),
        ]
    }
}

// The inode that 16 bytes are, if they are a file's.
impl TryFrom<&Quarter> for Inode {
    type Error = Malformed;

    ghost try_from_gives = { λ bytes result. MatchResult result (λ n. IsFile n.links n.pointers bytes.now) (λ _. is_file bytes.now ≡ false) };

    fn try_from(bytes: &Quarter) -> Result<Inode, Malformed> {
        if bytes[0] != FILE || bytes[1] != 0 {
            return Err(Malformed);
        }
        Ok(Inode {
            links: word(bytes, 2),
            pointers: from_fn(|k| word(bytes, 4 + 2 * k)),
        })
    }
}
