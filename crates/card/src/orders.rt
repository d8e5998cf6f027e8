// Devices that keep one meaning and land waiting writes in different orders.
use crate::show::Answer;
use anyhow::anyhow;
use bottoms::{Banked, Straight};
use device::{Bench, Device, Write};
use layout::Refusal;
use staging::Staging;

// Submits a block whose bytes are all its own number.
fn send<D: Device>(device: &mut D, block: usize) -> Result<(), Refusal> {
    let bytes = [(block % 256) as u8; 64];
    device.submit(Write { block, bytes })
}

// The first byte of a block, as it stands on the medium.
fn first_byte<D: Device>(device: &mut D, block: usize) -> Result<u8, Refusal> {
    Ok(device.read(block)?[0])
}

// Submits 42, then 17, and tells them as they land.
fn show_landings<D: Device>(rt: &HostRuntime, what: &str, device: &mut D) -> anyhow::Result<()> {
    let first = send(device, 42);
    let second = send(device, 17);
    print!(rt;
        "{what}: 42 gets {}, 17 gets {}; landed:",
        Answer(&first),
        Answer(&second)
    )?;
    while let Some(block) = device.collect() {
        print!(rt; " {block}")?;
    }
    println!(rt; "")?;
    Ok(())
}

// Submits 42, 17 and 5, and cuts the power so that the first and the third land.
fn show_cut(rt: &HostRuntime, board: &mut Banked) -> anyhow::Result<()> {
    for block in [42, 17, 5] {
        send(board, block)?;
    }
    let landed = board.cut(0b101);
    let a = first_byte(board, 42)?;
    let b = first_byte(board, 17)?;
    let c = first_byte(board, 5)?;
    println!(rt;
        "42, 17 and 5 wait, cut with mask 5: {landed} landed; 42 holds {a}, 17 holds {b}, 5 holds {c}"
    )?;
    Ok(())
}

pub(crate) fn show_orders(rt: &HostRuntime) -> anyhow::Result<()> {
    println!(rt; "\nWrites that wait, on devices of 64 blocks:")?;
    let mut simulator = Straight::new(vec![in rt.alloc(); 0u8; 4096]?);
    show_landings(rt, "straight", &mut simulator)?;
    let mut staged = Staging::new(rt.alloc(), simulator).map_err(|_| anyhow!("no memory"))?;
    show_landings(rt, "staging over straight", &mut staged)?;
    let mut board = Banked::new(rt.alloc(), vec![in rt.alloc(); 0u8; 4096]?).map_err(|_| anyhow!(
        "no memory"
    ))?;
    show_landings(rt, "banked", &mut board)?;
    let mut fresh = Banked::new(rt.alloc(), vec![in rt.alloc(); 0u8; 4096]?).map_err(|_| anyhow!(
        "no memory"
    ))?;
    show_cut(rt, &mut fresh)
}
