// A medium as the judgement reads it.
ghost use Rattle.std.specs.Prelude.{◌≡◌, ◌+◌, ◌*◌, ◌%◌, ◌<◌, true, false, MatchOption};
ghost use Rattle.layout.specs.Entries.{empty};
ghost use Rattle.layout.specs.Shapes.{inode_block};
ghost use Rattle.soundness.specs.Media.{inode as inode_on, slot as slot_on};
ghost use Rattle.soundness.specs.Verdict.{at, slot_place as place_of_slot};

use blocks::{Block, Quarter, is_zero, quarter};
use layout::{Geometry, Place};

// The table of a medium's blocks, of which the first count, and the geometry that its head tells.
#[derive(Clone, Copy, Debug)]
pub struct Medium<'a> {
    pub table: &'a [Block; 128],
    pub geometry: Geometry,
}

impl Medium<'_> {
    // A copy of the 16 bytes of inode i.
    pub(crate) fn inode(&self, i: usize) -> Quarter
        requires within { i < self.now.geometry.shape.inodes }
        ensures { result ≡ inode_on self.now.table.now i }
    {
        quarter(&self.table[self.geometry.inode_block(i)], i % 4)
    }

    // A copy of the 16 bytes of slot s, if the table has its block.
    pub(crate) fn slot(&self, s: usize) -> Option<Quarter>
        ensures { MatchOption result (empty (slot_on self.now.geometry.shape self.now.table.now s) ≡ true)
            (λ q. q ≡ slot_on self.now.geometry.shape self.now.table.now s) }
    {
        let Medium { table, geometry } = self;
        Some(quarter(table.get(geometry.slot_block(s))?, s % 4))
    }

    // The entry in slot s, unless it is empty.
    pub(crate) fn entry(&self, s: usize) -> Option<Quarter>
        ensures { MatchOption result (empty (slot_on self.now.geometry.shape self.now.table.now s) ≡ true)
            (λ e. (e ≡ slot_on self.now.geometry.shape self.now.table.now s) × (empty e ≡ false)) }
    {
        let slot = self.slot(s)?;
        if is_zero(&slot) { None } else { Some(slot) }
    }

    // The place of byte k of inode i.
    pub(crate) fn inode_place(&self, i: usize, k: usize) -> Place
        requires within { k < 16 }
        ensures { result ≡ at (inode_block i) (16 * (i % 4) + k) }
    {
        Place {
            block: self.geometry.inode_block(i),
            byte: 16 * (i % 4) + k,
        }
    }

    // The place of the first byte of slot s.
    pub(crate) fn slot_place(&self, s: usize) -> Place
        ensures { result ≡ place_of_slot self.now.geometry.shape s }
    {
        Place {
            block: self.geometry.slot_block(s),
            byte: 16 * (s % 4),
        }
    }
}
