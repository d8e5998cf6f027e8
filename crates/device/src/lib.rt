// What a device is: blocks of 64 bytes, and writes that wait until they land.
#![tactic(auto)]

ghost use Rattle.std.specs.Prelude.{◌≡◌, ℕ, List};
ghost use Rattle.device.specs.declared.types.Write.{Write};
ghost use Rattle.device.specs.Meaning.{means, waits, Kept, submit_answer, submitted, Collected, read_answer};
ghost use Rattle.device.specs.Cuts.{cut_count, cut as cut_of};

use blocks::Block;
use layout::Refusal;

mod among;
mod types;

pub use among::is_among;
pub use types::Write;

// What a device means is told by its first four ghost members; each call is told by what it does to that.
pub trait Device {
    ghost medium: { Self → List (List ℕ) };

    ghost waiting: { Self → List Write };

    ghost size: { Self → ℕ };

    ghost depth: { Self → ℕ };

    // How many blocks there are.
    fn blocks(&self) -> usize
        ensures { result ≡ size self.now };

    // How many writes may wait.
    fn slots(&self) -> usize
        ensures { result ≡ depth self.now };

    // Whether a write of this block waits.
    fn is_waiting(&self, block: usize) -> bool
        ensures { result ≡ waits (waiting self.now) block };

    // Puts a write at the end of those that wait.
    fn submit(&mut self, write: Write) -> Result<(), Refusal>
        ensures answer { result ≡ submit_answer (means medium waiting size depth self.old) write.block }
        ensures after { means medium waiting size depth self.new ≡ submitted result (means medium waiting size depth self.old) write };

    // Lands one waiting write, of the device's own choice, and tells its block.
    fn collect(&mut self) -> Option<usize>
        ensures { Collected (means medium waiting size depth self.old) result (means medium waiting size depth self.new) };

    // A block of the medium. A device that is driven through registers changes them to read, so it is lent for writing.
    fn read(&mut self, block: usize) -> Result<Block, Refusal>
        ensures answer { result ≡ read_answer (means medium waiting size depth self.old) block }
        ensures after { means medium waiting size depth self.new ≡ means medium waiting size depth self.old };

    // What every implementation shows of its meaning, and generic code may use without asking.
    ghost kept: { (d : Self) → Kept (means medium waiting size depth d) };
}

// A device whose power can be cut: the writes whose bit is set in the mask land, the others are lost.
pub trait Bench: Device {
    fn cut(&mut self, mask: u8) -> u8
        ensures count { result ≡ cut_count mask (Self.Device.waiting self.old) }
        ensures after { means Self.Device.medium Self.Device.waiting Self.Device.size Self.Device.depth self.new ≡ cut_of mask (means Self.Device.medium Self.Device.waiting Self.Device.size Self.Device.depth self.old) };
}
