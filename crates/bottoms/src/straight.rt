// A device with room for one waiting write.
ghost use Rattle.std.specs.Prelude.{◌≡◌, true};
ghost use Rattle.std.specs.Option.{option_to_list};
ghost use Rattle.device.specs.Meaning.{inside as inside_of};
ghost use Rattle.bottoms.specs.Used.{used};

use crate::image::Image;
use device::Write;

mod works;

// The image, and the write that waits.
#[derive(Drop)]
pub struct Straight {
    image: Image,
    pending: Option<Write>,
    ghost inside: { inside_of (used image.0.items) (option_to_list pending) ≡ true },
}
