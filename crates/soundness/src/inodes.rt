// The judgement of inodes and of their link counts.
ghost use Rattle.std.specs.Prelude.{◌≡◌, ℕ, ◌<◌, slice_index};
ghost use Rattle.std.specs.Result.{result_err};
ghost use Rattle.finite.specs.Finite.{count};
ghost use Rattle.layout.specs.Shapes.{slots};
ghost use Rattle.soundness.specs.Media.{names};
ghost use Rattle.soundness.specs.Faults.{inode_fault};
ghost use Rattle.soundness.specs.Verdict.{inode_verdict, link_verdict};

use crate::medium::Medium;
use blocks::{bit, is_zero, word};
use finite::lowest;
use layout::{Inode, Refusal};

impl Medium<'_> {
    // Whether inode i is neither all zeros nor a marked file's.
    fn is_wrong_inode(&self, i: usize) -> bool
        requires within { i < self.now.geometry.shape.inodes }
        ensures { result ≡ inode_fault self.now.table.now i }
    {
        let bytes = self.inode(i);
        !is_zero(&bytes) && !(Inode::try_from(&bytes).is_ok() && (i > 0 && bit(&self.table[1], i)))
    }

    pub(crate) fn check_inodes(&self) -> Result<(), Refusal>
        ensures { result_err result ≡ inode_verdict self.now.geometry.shape self.now.table.now }
    {
        // No `map_or`: see `check_body`.
        match lowest(self.geometry.shape.inodes, |i| self.is_wrong_inode(i)) {
            Some(i) => Err(Refusal::BadInode(self.inode_place(i, 0))),
            None => Ok(()),
        }
    }

    // How many slots name each inode, in one pass over the slots.
    fn count_names(&self) -> [u16; 32]
        ensures { (i : ℕ) → i < 32 → slice_index result i ≡ count (slots self.now.geometry.shape) (names self.now.geometry.shape self.now.table.now i) }
    {
        let mut named = [0u16; 32];
        for entry in (0..self.geometry.slots()).filter_map(|s| self.entry(s)) {
            let i = usize::from(word(&entry, 0));
            if i < 32 {
                named[i] += 1;
            }
        }
        named
    }

    pub(crate) fn check_links(&self) -> Result<(), Refusal>
        ensures { result_err result ≡ link_verdict self.now.geometry.shape self.now.table.now }
    {
        let named = self.count_names();
        let has_few_links = |i: usize| word(&self.inode(i), 2) < named[i];
        // No `map_or`: see `check_body`.
        match lowest(self.geometry.shape.inodes, has_few_links) {
            Some(i) => Err(Refusal::FewLinks(self.inode_place(i, 2))),
            None => Ok(()),
        }
    }
}
