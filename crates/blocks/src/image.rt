// Images of a card: block b is bytes 64 b to 64 b + 63.
ghost use Rattle.std.specs.Prelude.{◌≡◌, ◌+◌, ◌*◌, ◌≤◌, ◌++◌, length, drop};
ghost use Rattle.blocks.specs.Images.{image_block, with_block};

use crate::bytes::{Block, part};

// Writes a block at the beginning of the part of an image that is lent.
pub fn write_block(part: &mut [u8], bytes: &Block)
    requires within { 64 ≤ length part.old }
    ensures { part.new ≡ bytes.now ++ drop 64 part.old }
{
    part[0..64].copy_from_slice(bytes);
}

// Writes block b of an image: the part that starts there is lent on.
pub fn put_block(image: &mut [u8], b: usize, bytes: &Block)
    requires within { 64 * b + 64 ≤ length image.old }
    ensures { image.new ≡ with_block image.old b bytes.now }
{
    write_block(&mut image[64 * b..], bytes);
}

// A copy of block b of an image.
pub fn get_block(image: &[u8], b: usize) -> Block
    requires within { 64 * b + 64 ≤ length image.now }
    ensures { result ≡ image_block image.now b }
{
    part(image, 64 * b)
}
