// What the program prints.
use blocks::Block;
use layout::{Geometry, Refusal};
use soundness::judge;
use std::fmt;

// What a call answered, as a read-out has it: 0, or the refusal.
#[derive(Drop)]
pub(crate) struct Answer<'a, T>(pub(crate) &'a Result<T, Refusal>);

impl<T> fmt::Display for Answer<'_, T> {
    fn fmt<W: fmt::Write>(&self, f: &mut fmt::Formatter<W>) -> fmt::Result {
        match self.0 {
            Ok(_) => f.write_str("0"),
            Err(refusal) => write!(f, "{refusal}"),
        }
    }
}

// One row of 16 bytes.
fn show_row(rt: &HostRuntime, row: &[u8]) -> anyhow::Result<()> {
    print!(rt; "   ")?;
    for byte in row {
        print!(rt; " {byte:02x}")?;
    }
    println!(rt; "")?;
    Ok(())
}

// Each block with what it is for; rows that repeat the one above are left out.
pub(crate) fn show_blocks(
    rt: &HostRuntime,
    geometry: &Geometry,
    image: &[u8],
) -> anyhow::Result<()> {
    for (b, block) in image.chunks(64).enumerate() {
        println!(rt; "block {b}: {}", geometry.region(b))?;
        let mut above: &[u8] = &[];
        for row in block.chunks(16) {
            if row != above {
                show_row(rt, row)?;
            }
            above = row;
        }
    }
    Ok(())
}

pub(crate) fn show_verdict(
    rt: &HostRuntime,
    what: &str,
    table: &[Block; 128],
    size: usize,
) -> anyhow::Result<()> {
    match judge(table, size) {
        Ok(geometry) => println!(rt; "{what}: sound, with {}", geometry.shape)?,
        Err(refusal) => println!(rt; "{what}: {refusal}")?,
    }
    Ok(())
}
