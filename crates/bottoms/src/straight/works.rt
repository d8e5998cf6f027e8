// How a device with room for one waiting write works.
ghost use Rattle.std.specs.Prelude.{◌≡◌};
ghost use Rattle.std.specs.Option.{option_to_list};
ghost use Rattle.bottoms.specs.Means.{straight_means};
ghost use Rattle.bottoms.specs.Sounds.{straight_kept};
ghost use Rattle.bottoms.specs.Used.{blocks_of, fresh, used};

use super::Straight;
use crate::image::Image;
use blocks::Block;
use device::{Bench, Device, Write};
use layout::Refusal;

impl Straight {
    // The device of the whole blocks of an image, up to 256, with no write waiting.
    pub fn new(image: Vec<u8>) -> Straight
        ensures means { straight_means result ≡ fresh 1 image.items }
        ensures image { result.image.0.items ≡ image.items }
    {
        Straight {
            image: Image::new(image),
            pending: None,
        }
    }

    // Gives the image back, with what has landed on it; a write that still waits is lost.
    pub fn into_image(self) -> Vec<u8>
        ensures { result.items ≡ self.image.0.items }
    {
        self.image.into_bytes()
    }
}

impl Device for Straight {
    ghost medium = { λ s. blocks_of s.image.0.items };

    ghost waiting = { λ s. option_to_list s.pending };

    ghost size = { λ s. used s.image.0.items };

    ghost depth = { λ _. 1 };

    fn blocks(&self) -> usize {
        self.image.blocks()
    }

    fn slots(&self) -> usize {
        1
    }

    fn is_waiting(&self, block: usize) -> bool {
        self.pending.is_some_and(|w| w.block == block)
    }

    fn submit(&mut self, write: Write) -> Result<(), Refusal> {
        if write.block >= self.blocks() {
            return Err(Refusal::NoSuchBlock);
        }
        match self.pending {
            Some(w) if w.block == write.block => Err(Refusal::UnderWay),
            Some(_) => Err(Refusal::DeviceFull),
            None => {
                self.pending = Some(write);
                Ok(())
            }
        }
    }

    fn collect(&mut self) -> Option<usize> {
        let w = self.pending.take()?;
        self.image.land(&w);
        Some(w.block)
    }

    fn read(&mut self, block: usize) -> Result<Block, Refusal> {
        self.image.read(block)
    }

    ghost kept = { straight_kept };
}

impl Bench for Straight {
    fn cut(&mut self, mask: u8) -> u8 {
        let Some(w) = self.pending.take() else {
            return 0;
        };
        if mask % 2 == 0 {
            return 0;
        }
        self.image.land(&w);
        1
    }
}
