// The search for a block among waiting writes.
ghost use Rattle.std.specs.Prelude.{◌≡◌};
ghost use Rattle.device.specs.Meaning.{waits};

use crate::types::Write;

// Whether one of these writes is of this block.
pub fn is_among(writes: &[Write], block: usize) -> bool
    ensures { result ≡ waits writes.now block }
{
    writes.iter().any(|w| w.block == block)
}
