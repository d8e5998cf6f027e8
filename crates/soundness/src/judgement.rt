// The judgement of a medium.
ghost use Rattle.std.specs.Prelude.{◌≡◌, is_ok, IfOk, Decides};
ghost use Rattle.std.specs.Result.{result_err};
ghost use Rattle.soundness.specs.Verdict.{verdict, body_verdict};
ghost use Rattle.soundness.specs.Sound.{Sound, SoundAt, VerdictIsRight, PreparedIsSound};

use crate::head::read_head;
use crate::medium::Medium;
use blocks::Block;
use layout::{Geometry, Refusal};

impl Medium<'_> {
    // What the blocks after the head tell. Each check has a `match` on what `lowest` finds, of four lines; so would be
    // `.map_or(Ok(()), |i| Err(..))`, whose closure gets no contract from the check.
    fn check_body(&self) -> Result<(), Refusal>
        ensures { result_err result ≡ body_verdict self.now.geometry.shape self.now.table.now }
    {
        self.check_maps()?;
        self.check_inodes()?;
        self.check_pointers()?;
        self.check_slots()?;
        self.check_names()?;
        self.check_links()
    }
}

// Judges the medium of a device of this size, from a table of its blocks: its geometry, or what is at fault, and where.
// A table and a size, and no slice: the controller has a fixed table, and a device with more blocks is refused by its size.
pub fn judge(table: &[Block; 128], size: usize) -> Result<Geometry, Refusal>
    ensures value { result_err result ≡ verdict table.now size }
    ensures sound { Decides (is_ok result) (Sound table.now size) }
    ensures geometry { IfOk result (λ g. SoundAt g.shape table.now) }
    ensures verdict_law { VerdictIsRight }
    ensures prepared_law { PreparedIsSound }
{
    let geometry = read_head(&table[0], size)?;
    Medium { table, geometry }.check_body()?;
    Ok(geometry)
}
