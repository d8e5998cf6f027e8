// A write that waits in a device.
ghost use Rattle.std.specs.Prelude.{◌≡◌, length};

use blocks::Block;

// The block that is written, and its bytes.
#[derive(Clone, Copy, Debug, PartialEq, Eq)]
pub struct Write {
    pub block: usize,
    pub bytes: Block,
    ghost whole: { length bytes ≡ 64 },
}
