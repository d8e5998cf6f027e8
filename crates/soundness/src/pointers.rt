// The judgement of pointers.
ghost use Rattle.std.specs.Prelude.{◌≡◌, ◌*◌, ◌<◌};
ghost use Rattle.std.specs.Result.{result_err};
ghost use Rattle.soundness.specs.Faults.{pointer_at, marked_data};
ghost use Rattle.soundness.specs.Verdict.{pointer_verdict, pointer_place as place_of};

use crate::medium::Medium;
use blocks::{bit, word};
use layout::{Place, Refusal};

impl Medium<'_> {
    // Pointer q of the card: six for each inode.
    fn pointer(&self, q: usize) -> usize
        requires within { q < 6 * self.now.geometry.shape.inodes }
        ensures { result ≡ pointer_at self.now.table.now q }
    {
        usize::from(word(&self.inode(q / 6), 4 + 2 * (q % 6)))
    }

    // The place of the first byte of pointer q.
    fn pointer_place(&self, q: usize) -> Place
        ensures { result ≡ place_of q }
    {
        self.inode_place(q / 6, 4 + 2 * (q % 6))
    }

    // Whether b is a block of the data area, and marked.
    fn is_marked_data(&self, b: usize) -> bool
        ensures { result ≡ marked_data self.now.geometry.shape self.now.table.now b }
    {
        (self.geometry.first_data()..self.geometry.shape.blocks).contains(&b)
            && bit(&self.table[2], b)
    }

    // The pointers in one pass, with a mark for each block that one has led to.
    pub(crate) fn check_pointers(&self) -> Result<(), Refusal>
        ensures { result_err result ≡ pointer_verdict self.now.geometry.shape self.now.table.now }
    {
        let mut led = [false; 128];
        // By number: a refusal tells q, and each turn marks what the next ones look at.
        for q in 0..6 * self.geometry.shape.inodes {
            match self.pointer(q) {
                0 => {}
                b if self.is_marked_data(b) && !led[b] => led[b] = true,
                _ => return Err(Refusal::BadPointer(self.pointer_place(q))),
            }
        }
        Ok(())
    }
}
