// The numbers in a run of bytes, and the quarters of a block.
ghost use Rattle.std.specs.Prelude.{◌≡◌, ◌+◌, ◌<◌, ◌≤◌, length, slice_index};
ghost use Rattle.blocks.specs.Bytes.{word as word_of, low as low_of, high as high_of, part as part_of, zeros, quarter as quarter_of};

pub type Block = [u8; 64];

// A quarter of a block: an inode or a slot.
pub type Quarter = [u8; 16];

// The 16-bit number at a place, low byte first; its two bytes are those that stand there.
pub fn word(bytes: &[u8], at: usize) -> u16
    requires within { at + 1 < length bytes.now }
    ensures value { result ≡ word_of bytes.now at }
    ensures low_byte { low_of result ≡ slice_index bytes.now at }
    ensures high_byte { high_of result ≡ slice_index bytes.now (at + 1) }
{
    u16::from_le_bytes([bytes[at], bytes[at + 1]])
}

// The low byte of a 16-bit number.
pub fn low(n: u16) -> u8
    ensures { result ≡ low_of n }
{
    n.to_le_bytes()[0]
}

// The high byte of a 16-bit number.
pub fn high(n: u16) -> u8
    ensures { result ≡ high_of n }
{
    n.to_le_bytes()[1]
}

// Whether all bytes are zero.
pub fn is_zero(bytes: &[u8]) -> bool
    ensures { result ≡ zeros (length bytes.now) bytes.now }
{
    bytes.iter().all(|&byte| byte == 0)
}

// A copy of the N bytes from a place on.
pub fn part<const N: usize>(bytes: &[u8], at: usize) -> [u8; N]
    requires within { at + N ≤ length bytes.now }
    ensures { result ≡ part_of bytes.now at N }
{
    let mut copy = [0u8; N];
    copy.copy_from_slice(&bytes[at..at + N]);
    copy
}

// A copy of quarter k of a block.
pub fn quarter(block: &Block, k: usize) -> Quarter
    requires within { k < 4 }
    ensures { result ≡ quarter_of block.now k }
{
    part(block, 16 * k)
}
