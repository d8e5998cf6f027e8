// An empty card in an image.
ghost use Rattle.std.specs.Prelude.{◌≡◌, ◌*◌, length, Ok, Err, MatchResult, ◌≢◌};
ghost use Rattle.layout.specs.Shapes.{Good};
ghost use Rattle.layout.specs.Heads.{head_of, head_shape};
ghost use Rattle.layout.specs.Fresh.{fresh_block, prepared};
ghost use Rattle.layout.specs.declared.refusal.Refusal.TheVariants.{BadGeometry};

use crate::geometry::{Geometry, Shape};
use crate::refusal::Refusal;
use blocks::{Block, Map, write_block};

impl Geometry {
    // The head of a card of this geometry; read again it tells the same.
    pub fn head(&self) -> Block
        ensures value { result ≡ head_of self.now.shape }
        ensures back { head_shape result ≡ self.now.shape }
    {
        let mut head = [0u8; 64];
        head[0] = b'F';
        head[1] = b'S';
        head[2] = b'T';
        head[4] = 1;
        head[6] = self.shape.blocks as u8;
        head[8] = self.shape.inodes as u8;
        head[10] = self.shape.directory as u8;
        head
    }

    // Block b of an empty card, before the data area.
    fn fresh_block(&self, b: usize) -> Block
        ensures { result ≡ fresh_block self.now.shape b }
    {
        match b {
            0 => self.head(),
            1 => Block::from(&Map::below(1)),
            2 => Block::from(&Map::below(self.first_data())),
            _ => [0; 64],
        }
    }
}

// Writes an empty card of this shape into an image of as many blocks; the data area is left as it lies there.
pub fn prepare(image: &mut [u8], shape: Shape) -> Result<Geometry, Refusal>
    ensures answer { MatchResult result (λ g. (g.shape ≡ shape) × (length image.old ≡ 64 * shape.blocks))
        (λ e. (e ≡ BadGeometry) × (Good shape → length image.old ≢ 64 * shape.blocks)) }
    ensures after { image.new ≡ elim result [ Ok g ↦ prepared g.shape image.old | Err e ↦ image.old ] }
{
    let geometry = Geometry::try_from(shape)?;
    if image.len() != 64 * geometry.shape.blocks {
        return Err(Refusal::BadGeometry);
    }
    // By number, and not by chunks, by a rule of the project: the part of the image that starts at a block is lent to `write_block`.
    for b in 0..geometry.first_data() {
        write_block(&mut image[64 * b..], &geometry.fresh_block(b));
    }
    Ok(geometry)
}
