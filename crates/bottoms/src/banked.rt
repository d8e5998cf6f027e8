// A device with four channels and room for eight waiting writes.
ghost use Rattle.std.specs.Prelude.{◌≡◌, ◌<◌, ◌≤◌, true, vec_len, vec_capacity};
ghost use Rattle.device.specs.Meaning.{inside as inside_of, apart};
ghost use Rattle.bottoms.specs.Used.{used};

use crate::image::Image;
use device::Write;

mod channels;
mod cuts;
mod works;

// The image, the writes that wait, oldest first, and the channel that is asked first.
#[derive(Drop)]
pub struct Banked {
    image: Image,
    queue: Vec<Write>,
    next: usize,
    ghost fits: { vec_len queue ≤ 8 },
    ghost reserved: { 8 ≤ vec_capacity queue },
    ghost inside: { inside_of (used image.0.items) queue.items ≡ true },
    ghost distinct: { apart queue.items ≡ true },
    ghost channel: { next < 4 },
}
