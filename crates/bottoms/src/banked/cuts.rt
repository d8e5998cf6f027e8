// A power cut of a device with four channels.
ghost use Rattle.std.specs.Prelude.{◌≡◌, ◌≤◌, true, length};
ghost use Rattle.device.specs.Meaning.{inside as inside_of};
ghost use Rattle.device.specs.Cuts.{cut_count, cut_medium, cut as cut_of};
ghost use Rattle.bottoms.specs.Cuts.{cut_image};
ghost use Rattle.bottoms.specs.Means.{banked_means};
ghost use Rattle.bottoms.specs.Used.{blocks_of, used as used_of};

use super::Banked;
use crate::image::Image;
use device::{Bench, Write};

// Lands the writes whose bit is set, bit 0 being that of the oldest, and says how many.
#[tactic(auto, using(crate::proofs::Landing::inside_taken))]
fn land(image: &mut Image, queue: &[Write], mask: u8) -> u8
    requires inside { inside_of (used_of image.old.0.items) queue.now ≡ true }
    requires few { length queue.now ≤ 8 }
    ensures count { result ≡ cut_count mask queue.now }
    ensures bytes { image.new.0.items ≡ cut_image mask queue.now image.old.0.items }
    ensures blocks { blocks_of image.new.0.items ≡ cut_medium mask queue.now (blocks_of image.old.0.items) }
    ensures used { used_of image.new.0.items ≡ used_of image.old.0.items }
{
    let mut bits = mask;
    let mut count = 0;
    // No chain: each turn may change the image.
    for w in queue {
        if bits % 2 == 1 {
            image.land(w);
            count += 1;
        }
        bits /= 2;
    }
    count
}

impl Bench for Banked {
    // After a cut channel 0 is asked first.
    fn cut(&mut self, mask: u8) -> u8
        ensures count { result ≡ cut_count mask self.old.queue.items }
        ensures after { banked_means self.new ≡ cut_of mask (banked_means self.old) }
        ensures channel { self.new.next ≡ 0 }
    {
        let count = land(&mut self.image, &self.queue, mask);
        self.queue.clear();
        self.next = 0;
        count
    }
}
