// The geometry of a card, and the block ranges that follow from it.
ghost use Rattle.std.specs.Prelude.{◌≡◌, MatchResult};
ghost use Rattle.layout.specs.Shapes.{Good, good_blocks, good_inodes, good_directory, inode_block, slot_block, first_directory, first_data, slots as slots_of};
ghost use Rattle.layout.specs.declared.refusal.Refusal.TheVariants.{BadGeometry};

use crate::refusal::Refusal;
use std::fmt;

// How many blocks a card has, how many inodes, and how many directory blocks: any three numbers.
#[derive(Clone, Copy, Debug, PartialEq, Eq)]
pub struct Shape {
    pub blocks: usize,
    pub inodes: usize,
    pub directory: usize,
}

impl fmt::Display for Shape {
    fn fmt<W: fmt::Write>(&self, f: &mut fmt::Formatter<W>) -> fmt::Result {
        let Shape {
            blocks,
            inodes,
            directory,
        } = self;
        write!(
            f,
            "{blocks} blocks, {inodes} inodes, {directory} for the directory"
        )
    }
}

impl Shape {
    // Whether there may be so many blocks.
    pub fn has_good_blocks(&self) -> bool
        ensures { result ≡ good_blocks self.now.blocks }
    {
        self.blocks >= 8 && self.blocks <= 128
    }

    // Whether there may be so many inodes.
    pub fn has_good_inodes(&self) -> bool
        ensures { result ≡ good_inodes self.now.inodes }
    {
        self.inodes >= 4 && (self.inodes <= 32 && self.inodes % 4 == 0)
    }

    // Whether there may be so many directory blocks, and a block is left for data.
    pub fn has_good_directory(&self) -> bool
        ensures { result ≡ good_directory self.now.blocks self.now.inodes self.now.directory }
    {
        self.directory >= 1
            && (self.directory <= 8 && 3 + self.inodes / 4 + self.directory < self.blocks)
    }
}

// A shape within its limits.
#[derive(Clone, Copy, Debug, PartialEq, Eq)]
pub struct Geometry {
    pub shape: Shape,
    ghost good: { Good shape },
}

impl TryFrom<Shape> for Geometry {
    type Error = Refusal;

    ghost try_from_gives = { λ shape result. MatchResult result (λ g. g.shape ≡ shape) (λ e. (e ≡ BadGeometry) × (Good shape → ⊥)) };

    fn try_from(shape: Shape) -> Result<Geometry, Refusal> {
        if shape.has_good_blocks() && shape.has_good_inodes() && shape.has_good_directory() {
            Ok(Geometry { shape })
        } else {
            Err(Refusal::BadGeometry)
        }
    }
}

impl Geometry {
    // The block of inode i.
    pub fn inode_block(&self, i: usize) -> usize
        ensures { result ≡ inode_block i }
    {
        3 + i / 4
    }

    // The first directory block, which follows the inode blocks.
    pub fn first_directory(&self) -> usize
        ensures { result ≡ first_directory self.now.shape }
    {
        3 + self.shape.inodes / 4
    }

    // The block of slot s.
    pub fn slot_block(&self, s: usize) -> usize
        ensures { result ≡ slot_block self.now.shape s }
    {
        self.first_directory() + s / 4
    }

    // The first block of the data area.
    pub fn first_data(&self) -> usize
        ensures { result ≡ first_data self.now.shape }
    {
        self.first_directory() + self.shape.directory
    }

    // How many slots the directory has.
    pub fn slots(&self) -> usize
        ensures { result ≡ slots_of self.now.shape }
    {
        4 * self.shape.directory
    }
}
