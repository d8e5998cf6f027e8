// What each block of a card is for.
ghost use Rattle.std.specs.Prelude.{◌≡◌};
ghost use Rattle.layout.specs.Regions.{region as region_of};

use crate::geometry::Geometry;
use std::fmt;

#[derive(Clone, Copy, Debug, PartialEq, Eq)]
pub enum Region {
    Head,
    InodeMap,
    BlockMap,
    Inodes,
    Directory,
    Data,
    Outside,
}

impl fmt::Display for Region {
    fn fmt<W: fmt::Write>(&self, f: &mut fmt::Formatter<W>) -> fmt::Result {
        f.pad(match self {
            Region::Head => "head",
            Region::InodeMap => "inode map",
            Region::BlockMap => "block map",
            Region::Inodes => "inodes",
            Region::Directory => "directory",
            Region::Data => "data",
            Region::Outside => "outside",
        })
    }
}

impl Geometry {
    // The region that block b lies in.
    pub fn region(&self, b: usize) -> Region
        ensures { result ≡ region_of self.now.shape b }
    {
        match b {
            0 => Region::Head,
            1 => Region::InodeMap,
            2 => Region::BlockMap,
            _ if b < self.first_directory() => Region::Inodes,
            _ if b < self.first_data() => Region::Directory,
            _ if b < self.shape.blocks => Region::Data,
            _ => Region::Outside,
        }
    }
}
