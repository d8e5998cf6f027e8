// The judgement of a head.
ghost use Rattle.std.specs.Prelude.{◌≡◌, IfOk};
ghost use Rattle.std.specs.Result.{result_err};
ghost use Rattle.layout.specs.Heads.{head_of, head_shape};
ghost use Rattle.soundness.specs.Verdict.{at, head_verdict};

use blocks::{Block, word};
use finite::lowest;
use layout::{Geometry, Place, Refusal, Shape};

fn in_head(byte: usize) -> Place
    ensures { result ≡ at 0 byte }
{
    Place { block: 0, byte }
}

// The geometry of a card with this head, on a device of this size, or what is at fault with the head.
pub fn read_head(head: &Block, size: usize) -> Result<Geometry, Refusal>
    ensures value { result_err result ≡ head_verdict head.now size }
    ensures geometry { IfOk result (λ g. g.shape ≡ head_shape head.now) }
    ensures back { IfOk result (λ g. head_of g.shape ≡ head.now) }
{
    let shape = Shape {
        blocks: size,
        inodes: usize::from(word(head, 8)),
        directory: usize::from(word(head, 10)),
    };
    if !shape.has_good_blocks() {
        return Err(Refusal::BadSize(in_head(0)));
    }
    if !head.starts_with(b"FST") {
        return Err(Refusal::BadMagic(in_head(0)));
    }
    if head[3] != 0 {
        return Err(Refusal::BadMagic(in_head(3)));
    }
    if word(head, 4) != 1 {
        return Err(Refusal::BadVersion(in_head(4)));
    }
    if usize::from(word(head, 6)) != size {
        return Err(Refusal::BadHead(in_head(6)));
    }
    if !shape.has_good_inodes() {
        return Err(Refusal::BadHead(in_head(8)));
    }
    if !shape.has_good_directory() {
        return Err(Refusal::BadHead(in_head(10)));
    }
    // By number, as the definition has it: `position` over the bytes leaves its value to prove.
    if let Some(k) = lowest(52, |k| head[12 + k] != 0) {
        return Err(Refusal::BadHead(in_head(12 + k)));
    }
    Ok(Geometry { shape })
}
