// The device below, and the writes that wait above it.
ghost use Rattle.std.specs.Prelude.{◌≤◌};
ghost use Rattle.std.specs.VecDeque.{deque_len, deque_capacity};
ghost use Rattle.device.specs.Meaning.{means};
ghost use Rattle.staging.specs.Staged.{Staged};

use device::{Device, Write};
use std::collections::VecDeque;

// The newest writes wait in the queue, the older ones in the device below. The queue has its memory from the start.
#[derive(Drop)]
pub struct Staging<D: Device> {
    pub(crate) inner: D,
    pub(crate) queue: VecDeque<Write>,
    pub(crate) room: usize,
    ghost fits: { deque_len queue ≤ room },
    ghost reserved: { room ≤ deque_capacity queue },
    pub ghost staged: { Staged (means D.medium D.waiting D.size D.depth inner) room queue.items },
}
