// The judgement of the two maps.
ghost use Rattle.std.specs.Prelude.{◌≡◌, ◌<◌, ◌/◌};
ghost use Rattle.std.specs.Result.{result_err};
ghost use Rattle.finite.specs.Finite.{lowest as lowest_of};
ghost use Rattle.layout.specs.declared.refusal.Refusal.TheVariants.{BadMap};
ghost use Rattle.soundness.specs.Media.{block as block_on};
ghost use Rattle.soundness.specs.Faults.{bit_fault};
ghost use Rattle.soundness.specs.Verdict.{at, found, map_verdict};

use crate::medium::Medium;
use blocks::{Block, bit};
use finite::lowest;
use layout::{Place, Refusal};

// Whether bit n of a map is clear below `used`, or set from `end` on.
fn is_wrong_bit(map: &Block, used: usize, end: usize, n: usize) -> bool
    ensures { result ≡ bit_fault map.now used end n }
{
    if n < used {
        !bit(map, n)
    } else {
        n >= end && bit(map, n)
    }
}

impl Medium<'_> {
    // The map in a block: its bits below `used` must be set, and those from `end` on clear.
    fn check_map(&self, block: usize, used: usize, end: usize) -> Result<(), Refusal>
        requires within { block < 128 }
        ensures { result_err result ≡ found BadMap (λ n. at block (n / 8)) (lowest_of 512 (bit_fault (block_on self.now.table.now block) used end)) }
    {
        // No `map_or`: see `check_body`.
        match lowest(512, |n| is_wrong_bit(&self.table[block], used, end, n)) {
            Some(n) => Err(Refusal::BadMap(Place { block, byte: n / 8 })),
            None => Ok(()),
        }
    }

    pub(crate) fn check_maps(&self) -> Result<(), Refusal>
        ensures { result_err result ≡ map_verdict self.now.geometry.shape self.now.table.now }
    {
        self.check_map(1, 1, self.geometry.shape.inodes)?;
        self.check_map(2, self.geometry.first_data(), self.geometry.shape.blocks)
    }
}
