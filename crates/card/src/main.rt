// Prepares a small card, shows it block by block, puts a file on it, and judges it sound and damaged;
// then shows in which orders devices land what waits.
#![tactic(auto)]

mod build;
mod damage;
mod orders;
mod show;

use build::{SMALL, full_card, small_card, table_of};
use damage::DAMAGES;
use layout::{Shape, prepare};
use orders::show_orders;
use show::{Answer, show_blocks, show_verdict};

// What lies in the data area of a card before it is prepared: flash is erased to ones.
const ERASED: u8 = 0xff;

fn show_refusals(rt: &HostRuntime) -> anyhow::Result<()> {
    for (blocks, inodes, directory) in [(7, 4, 1), (8, 6, 1), (8, 4, 4), (16, 4, 1)] {
        let mut image = [ERASED; 512];
        let answer = prepare(
            &mut image,
            Shape {
                blocks,
                inodes,
                directory,
            },
        );
        println!(rt;
            "prepare {blocks} {inodes} {directory} in 512 bytes: {}",
            Answer(&answer)
        )?;
    }
    Ok(())
}

fn show_damages(rt: &HostRuntime, image: &[u8; 512]) -> anyhow::Result<()> {
    let table = table_of(image);
    show_verdict(rt, "as written", &table, 8)?;
    show_verdict(rt, "on a device of 7 blocks", &table, 7)?;
    show_verdict(rt, "on a device of 129 blocks", &table, 129)?;
    show_verdict(rt, "on a device of 9 blocks", &table, 9)?;
    for damage in DAMAGES {
        show_verdict(rt, damage.0, &damage.done_to(&table), 8)?;
    }
    Ok(())
}

// The largest card there is, with every slot and every data block in use.
fn show_full(rt: &HostRuntime) -> anyhow::Result<()> {
    let mut image = vec![in rt.alloc(); ERASED; 8192]?;
    full_card(&mut image)?;
    println!(rt; "\nA full card of 128 blocks, 32 inodes and 8 directory blocks:")?;
    show_verdict(rt, "as written", &table_of(&image), 128)
}

fn main(rt: HostRuntime) -> anyhow::Result<()> {
    let rt = &rt;
    let mut image = [ERASED; 512];
    let geometry = prepare(&mut image, SMALL)?;
    println!(rt; "An empty card of 8 blocks, 4 inodes and 1 directory block:")?;
    show_blocks(rt, &geometry, &image)?;
    show_verdict(rt, "as prepared", &table_of(&image), 8)?;
    show_refusals(rt)?;
    let geometry = small_card(&mut image)?;
    println!(rt; "\nThe same card with a file of one part, named A and B:")?;
    show_blocks(rt, &geometry, &image)?;
    show_damages(rt, &image)?;
    show_full(rt)?;
    show_orders(rt)
}
