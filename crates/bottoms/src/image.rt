// The image in which a device keeps its medium.
ghost use Rattle.std.specs.Prelude.{◌≡◌, ◌<◌, [], if◌then◌else◌, nat_lt, slice_index_or};
ghost use Rattle.blocks.specs.Images.{with_block};
ghost use Rattle.device.specs.Meaning.{landed};
ghost use Rattle.layout.specs.declared.refusal.Refusal.TheVariants.{NoSuchBlock};
ghost use Rattle.bottoms.specs.Used.{used as used_of, blocks_of};

use blocks::{Block, get_block, put_block};
use device::Write;
use layout::Refusal;

const BLOCK_BYTES: usize = 64;

const MOST_BLOCKS: usize = 256;

// The bytes of its blocks, one block after the other.
#[derive(Drop)]
pub(crate) struct Image(Vec<u8>);

impl Image {
    pub(crate) fn new(bytes: Vec<u8>) -> Image
        ensures { result.0.items ≡ bytes.items }
    {
        Image(bytes)
    }

    // How many blocks are used: the whole ones, up to 256.
    pub(crate) fn blocks(&self) -> usize
        ensures { result ≡ used_of self.now.0.items }
    {
        (self.0.len() / BLOCK_BYTES).min(MOST_BLOCKS)
    }

    // A copy of a block that is used.
    pub(crate) fn read(&self, block: usize) -> Result<Block, Refusal>
        ensures { result ≡ (if nat_lt block (used_of self.now.0.items) then Ok (slice_index_or (blocks_of self.now.0.items) block []) else Err NoSuchBlock) }
    {
        if block >= self.blocks() {
            return Err(Refusal::NoSuchBlock);
        }
        Ok(get_block(&self.0, block))
    }

    // Lands a write on its block.
    pub(crate) fn land(&mut self, write: &Write)
        requires within { write.now.block < used_of self.old.0.items }
        ensures bytes { self.new.0.items ≡ with_block self.old.0.items write.now.block write.now.bytes }
        ensures blocks { blocks_of self.new.0.items ≡ landed (blocks_of self.old.0.items) write.now }
        ensures used { used_of self.new.0.items ≡ used_of self.old.0.items }
    {
        put_block(&mut self.0, write.block, &write.bytes);
    }

    // Gives the bytes back.
    pub(crate) fn into_bytes(self) -> Vec<u8>
        ensures { result.items ≡ self.0.items }
    {
        self.0
    }
}
