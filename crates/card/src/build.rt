// Cards to show, made from their parts.
use blocks::{Block, Map, Quarter, put_block};
use layout::{Entry, Geometry, Inode, Name, Refusal, Shape, prepare};
use std::array::from_fn;

// The table of an image's blocks, as the judgement takes it.
pub(crate) fn table_of(image: &[u8]) -> [Block; 128] {
    let (blocks, _) = image.as_chunks();
    from_fn(|b| blocks.get(b).copied().unwrap_or([0u8; 64]))
}

// Puts 16 bytes at quarter k of block b.
fn put_quarter(image: &mut [u8], b: usize, k: usize, bytes: Quarter) {
    let at = 64 * b.min(127) + 16 * k.min(3);
    if at + 16 <= image.len() {
        image[at..at + 16].copy_from_slice(&bytes);
    }
}

fn put_map(image: &mut [u8], b: usize, map: Map) {
    if b < 128 && 64 * b + 64 <= image.len() {
        put_block(image, b, &Block::from(&map));
    }
}

// The entry that leads a name to an inode.
fn entry(inode: u16, name: &[u8]) -> Result<Quarter, Refusal> {
    let name = Name::try_from(name)?;
    Ok(Quarter::from(&Entry { inode, name }))
}

// The shape of the small card.
pub(crate) const SMALL: Shape = Shape {
    blocks: 8,
    inodes: 4,
    directory: 1,
};

// A card of 8 blocks with a file of one part, which has two names.
pub(crate) fn small_card(image: &mut [u8; 512]) -> Result<Geometry, Refusal> {
    let geometry = prepare(image, SMALL)?;
    put_map(image, 1, Map::below(2));
    put_map(image, 2, Map::below(6));
    let inode = Inode {
        links: 2,
        pointers: [5, 0, 0, 0, 0, 0],
    };
    put_quarter(image, 3, 1, Quarter::from(&inode));
    put_quarter(image, 4, 0, entry(1, b"A")?);
    put_quarter(image, 4, 1, entry(1, b"B")?);
    Ok(geometry)
}

// The six pointers of inode i on a full card: the data blocks in order, as far as they go.
fn pointers_of(i: usize) -> [u16; 6] {
    let first = 13 + 6 * i.min(32);
    from_fn(|k| {
        let b = first + k.min(6);
        if b < 128 { b as u16 } else { 0 }
    })
}

// A card of 128 blocks whose inodes, slots and data blocks are all in use.
pub(crate) fn full_card(image: &mut [u8]) -> Result<Geometry, Refusal> {
    let geometry = prepare(
        image,
        Shape {
            blocks: 128,
            inodes: 32,
            directory: 8,
        },
    )?;
    put_map(image, 1, Map::below(32));
    put_map(image, 2, Map::below(128));
    // Inodes from block 3 on, slots from block 11 on, four to a block.
    let (quarters, _) = image.as_chunks_mut();
    for (i, inode) in (1..32usize).zip(quarters.iter_mut().skip(4 * 3 + 1)) {
        *inode = Quarter::from(&Inode {
            links: if i == 1 { 2 } else { 1 },
            pointers: pointers_of(i),
        });
    }
    for (s, slot) in (0..32u8).zip(quarters.iter_mut().skip(4 * 11)) {
        let mut name = *b"part-of-log-AA";
        name[12] += s / 16;
        name[13] += s % 16;
        *slot = entry(u16::from(s.max(1)), &name)?;
    }
    Ok(geometry)
}
