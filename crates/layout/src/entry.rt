// A directory entry, and its 16 bytes.
ghost use Rattle.std.specs.Prelude.{◌≡◌, false, MatchResult};
ghost use Rattle.std.specs.Str.{bytes_eq};
ghost use Rattle.layout.specs.Names.{well_formed};
ghost use Rattle.layout.specs.Entries.{title as title_in, IsEntry};

use crate::malformed::Malformed;
use crate::name::Name;
use blocks::{Quarter, high, low, part, word};

// An entry leads a name to an inode.
#[derive(Clone, Copy, Debug, PartialEq, Eq)]
pub struct Entry {
    pub inode: u16,
    pub name: Name,
}

// A copy of the 14 bytes of a slot's name.
pub fn title(slot: &Quarter) -> [u8; 14]
    ensures { result ≡ title_in slot.now }
{
    part(slot, 2)
}

// Whether a slot's name has these 14 bytes.
pub fn has_title(slot: &Quarter, name: &[u8; 14]) -> bool
    ensures { result ≡ bytes_eq name.now (title_in slot.now) }
{
    *name == title(slot)
}

// The 16 bytes of an entry; read again they tell the same.
impl From<&Entry> for Quarter {
    ghost from_gives = { λ entry bytes. IsEntry entry.now.inode entry.now.name.bytes bytes };

    fn from(entry: &Entry) -> Quarter {
        let mut bytes = [0u8; 16];
        bytes[0] = low(entry.inode);
        bytes[1] = high(entry.inode);
        bytes[2..16].copy_from_slice(&entry.name.bytes);
        bytes
    }
}

// The entry that 16 bytes are, if their name is well formed.
impl TryFrom<&Quarter> for Entry {
    type Error = Malformed;

    ghost try_from_gives = { λ bytes result. MatchResult result (λ e. IsEntry e.inode e.name.bytes bytes.now) (λ _. well_formed (title_in bytes.now) ≡ false) };

    fn try_from(bytes: &Quarter) -> Result<Entry, Malformed> {
        let name = Name::try_from(title(bytes))?;
        Ok(Entry {
            inode: word(bytes, 0),
            name,
        })
    }
}
