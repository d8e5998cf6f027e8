// Maps: a block as 512 marks.
ghost use Rattle.std.specs.Prelude.{◌≡◌, ◌<◌, ◌≤◌, false, ltb, length, get_or, slice_index_or};
ghost use Rattle.finite.specs.Finite.{digit as digit_of, table};
ghost use Rattle.blocks.specs.Bits.{bit as bit_of, octet as octet_of};
ghost use Rattle.blocks.specs.Maps.{IsRead, IsWritten};

use crate::bytes::Block;
use std::array::from_fn;

// A map of 512 marks, as it is worked with.
#[derive(Clone, Copy, Debug, PartialEq, Eq)]
pub struct Map {
    pub marks: [bool; 512],
    ghost long: { length marks ≡ 512 },
}

// Whether a map marks n.
pub fn bit(map: &Block, n: usize) -> bool
    ensures { result ≡ bit_of map.now n }
{
    n < 512 && (map[n / 8] >> (n % 8)) % 2 == 1
}

impl Map {
    // The map that marks the numbers below n.
    pub fn below(n: usize) -> Map
        ensures { result.marks ≡ table 512 (λ k. ltb k n) }
    {
        Map {
            marks: from_fn(|k| k < n),
        }
    }

    // 1 where n is marked, 0 elsewhere.
    fn digit(&self, n: usize) -> u8
        requires { n < 512 }
        ensures value { result ≡ digit_of (slice_index_or self.now.marks n false) }
        ensures small { result ≤ 1 }
    {
        u8::from(self.marks[n])
    }

    fn octet(&self, k: usize) -> u8
        requires { k < 64 }
        ensures { result ≡ octet_of (λ n. get_or self.now.marks n false) k }
    {
        // Written out as the definition is: a `fold` over the eight marks leaves its bounds and its sum to prove.
        let n = 8 * k;
        let high = self.digit(n + 4)
            + 2 * (self.digit(n + 5) + 2 * (self.digit(n + 6) + 2 * self.digit(n + 7)));
        self.digit(n)
            + 2 * (self.digit(n + 1) + 2 * (self.digit(n + 2) + 2 * (self.digit(n + 3) + 2 * high)))
    }
}

// The marks of a block.
impl From<&Block> for Map {
    ghost from_gives = { λ block map. IsRead block.now map.marks };

    fn from(block: &Block) -> Map {
        Map {
            marks: from_fn(|n| bit(block, n)),
        }
    }
}

// The block of a map.
impl From<&Map> for Block {
    ghost from_gives = { λ map block. IsWritten map.now.marks block };

    fn from(map: &Map) -> Block {
        from_fn(|k| map.octet(k))
    }
}
