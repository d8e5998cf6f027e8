// How a staging device works: the device below is filled first, and refilled after each write that lands.
ghost use Rattle.std.specs.Prelude.{◌≡◌, MatchResult};
ghost use Rattle.device.specs.Meaning.{waits};
ghost use Rattle.staging.specs.Stacked.{Fresh, depth_of, medium_of, size_of, staged_kept, waiting_of};

use crate::types::Staging;
use blocks::Block;
use device::{Device, Write, is_among};
use layout::Refusal;
use std::alloc::Global;
use std::collections::VecDeque;

// The most writes that may wait in any device.
const MOST_DEPTH: usize = 1000;

// The most writes that the queue adds to those of the device below.
const MOST_ROOM: usize = 8;

impl<D: Device> Staging<D> {
    // A staging device above this one, or this one again where there is no memory.
    pub fn new(heap: Global, inner: D) -> Result<Staging<D>, D>
        ensures { MatchResult result (Fresh D.Device inner) (λ d. d ≡ inner) }
    {
        let room = MOST_DEPTH.saturating_sub(inner.slots()).min(MOST_ROOM);
        let Ok(queue) = VecDeque::with_capacity(heap, room) else {
            return Err(inner);
        };
        Ok(Staging { inner, queue, room })
    }

    // Whether a write of this block waits in the queue, which is mostly empty.
    fn is_queued(&self, block: usize) -> bool
        ensures { result ≡ waits self.now.queue.items block }
    {
        if self.queue.is_empty() {
            return false;
        }
        let (older, newer) = self.queue.as_slices();
        is_among(older, block) | is_among(newer, block)
    }
}

impl<D: Device> Device for Staging<D> {
    ghost medium = { medium_of D.Device };

    ghost waiting = { waiting_of D.Device };

    ghost size = { size_of D.Device };

    ghost depth = { depth_of D.Device };

    fn blocks(&self) -> usize {
        self.inner.blocks()
    }

    fn slots(&self) -> usize {
        self.inner.slots() + self.room
    }

    fn is_waiting(&self, block: usize) -> bool {
        self.inner.is_waiting(block) || self.is_queued(block)
    }

    fn submit(&mut self, write: Write) -> Result<(), Refusal> {
        if write.block >= self.inner.blocks() {
            return Err(Refusal::NoSuchBlock);
        }
        if self.is_waiting(write.block) {
            return Err(Refusal::UnderWay);
        }
        if self.inner.submit(write).is_ok() {
            return Ok(());
        }
        if self.queue.len() >= self.room {
            return Err(Refusal::DeviceFull);
        }
        self.queue.push_back_reserved(write);
        Ok(())
    }

    fn collect(&mut self) -> Option<usize> {
        let block = self.inner.collect()?;
        if let Some(oldest) = self.queue.pop_front() {
            let _ = self.inner.submit(oldest);
        }
        Some(block)
    }

    fn read(&mut self, block: usize) -> Result<Block, Refusal> {
        self.inner.read(block)
    }

    ghost kept = { λ s. staged_kept _ s (D.kept s.inner) };
}
