// How a device with four channels works.
ghost use Rattle.std.specs.Prelude.{◌≡◌, ◌+◌, ◌%◌, IfOk, IfErr, MatchOption, slice_index_or};
ghost use Rattle.std.specs.Option.{option_map};
ghost use Rattle.device.specs.Meaning.{submit_answer, submitted, Collected, read_answer};
ghost use Rattle.device.specs.declared.types.Write.{Write};
ghost use Rattle.bottoms.specs.Channels.{picked};
ghost use Rattle.bottoms.specs.Means.{banked_means};
ghost use Rattle.bottoms.specs.Sounds.{banked_kept};
ghost use Rattle.bottoms.specs.Used.{blocks_of, fresh, used};

use super::Banked;
use super::channels::{CHANNELS, pick};
use crate::image::Image;
use blocks::Block;
use device::{Device, Write, is_among};
use layout::Refusal;
use std::alloc::Global;

const DEPTH: usize = 8;

impl Banked {
    // The device of the whole blocks of an image, up to 256, with no write waiting; where there is no memory, the image back.
    pub fn new(heap: Global, image: Vec<u8>) -> Result<Banked, Vec<u8>>
        ensures made { IfOk result (λ b. (banked_means b ≡ fresh 8 image.items) × (b.image.0.items ≡ image.items) × (b.next ≡ 0)) }
        ensures refused { IfErr result (λ back. back.items ≡ image.items) }
    {
        let Ok(queue) = Vec::with_capacity(heap, DEPTH) else {
            return Err(image);
        };
        Ok(Banked {
            image: Image::new(image),
            queue,
            next: 0,
        })
    }

    // Gives the image back, with what has landed on it; the writes that still wait are lost.
    pub fn into_image(self) -> Vec<u8>
        ensures { result.items ≡ self.image.0.items }
    {
        self.image.into_bytes()
    }
}

impl Device for Banked {
    ghost medium = { λ s. blocks_of s.image.0.items };

    ghost waiting = { λ s. s.queue.items };

    ghost size = { λ s. used s.image.0.items };

    ghost depth = { λ _. 8 };

    fn blocks(&self) -> usize {
        self.image.blocks()
    }

    fn slots(&self) -> usize {
        DEPTH
    }

    fn is_waiting(&self, block: usize) -> bool {
        is_among(&self.queue, block)
    }

    #[tactic(auto, using(device::proofs::Waits::apart_push, device::proofs::Waits::inside_push))]
    fn submit(&mut self, write: Write) -> Result<(), Refusal>
        ensures answer { result ≡ submit_answer (banked_means self.old) write.block }
        ensures after { banked_means self.new ≡ submitted result (banked_means self.old) write }
        ensures channel { self.new.next ≡ self.old.next }
    {
        if write.block >= self.blocks() {
            return Err(Refusal::NoSuchBlock);
        }
        if self.is_waiting(write.block) {
            return Err(Refusal::UnderWay);
        }
        if self.queue.len() >= DEPTH {
            return Err(Refusal::DeviceFull);
        }
        self.queue.push_reserved(write);
        Ok(())
    }

    // Takes the oldest write of the next channel that has one, and then asks first the channel after it.
    #[tactic(auto, using(device::proofs::Waits::apart_removed, device::proofs::Waits::inside_removed, crate::proofs::Landing::inside_taken))]
    fn collect(&mut self) -> Option<usize>
        ensures cases { Collected (banked_means self.old) result (banked_means self.new) }
        ensures chosen { (d : Write) → result ≡ option_map (λ k. (slice_index_or self.old.queue.items k d).block) (picked self.old.queue.items self.old.next) }
        ensures channel { MatchOption result (self.new.next ≡ self.old.next) (λ b. self.new.next ≡ (b % 4 + 1) % 4) }
    {
        let place = pick(&self.queue, self.next)?;
        let w = self.queue.remove(place);
        self.image.land(&w);
        self.next = (w.block % CHANNELS + 1) % CHANNELS;
        Some(w.block)
    }

    fn read(&mut self, block: usize) -> Result<Block, Refusal>
        ensures answer { result ≡ read_answer (banked_means self.old) block }
        ensures after { banked_means self.new ≡ banked_means self.old }
        ensures channel { self.new.next ≡ self.old.next }
    {
        self.image.read(block)
    }

    ghost kept = { banked_kept };
}
