// Blocks of 64 bytes: the numbers in them, their quarters, their bits, and the images they make up.
#![tactic(auto)]

mod bytes;
mod image;
mod map;

pub use bytes::{Block, Quarter, high, is_zero, low, part, quarter, word};
pub use image::{get_block, put_block, write_block};
pub use map::{Map, bit};
