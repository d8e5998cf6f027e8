// The judgement of the directory: entries, and names that stand twice.
ghost use Rattle.std.specs.Prelude.{◌≡◌, not, ◌&&◌, nat_lt};
ghost use Rattle.std.specs.Str.{bytes_eq};
ghost use Rattle.std.specs.Result.{result_err};
ghost use Rattle.layout.specs.Inodes.{present};
ghost use Rattle.layout.specs.Entries.{empty, target, title as title_of};
ghost use Rattle.layout.specs.Names.{well_formed};
ghost use Rattle.soundness.specs.Media.{inode as inode_on, slot as slot_on};
ghost use Rattle.soundness.specs.Faults.{slot_fault, name_fault};
ghost use Rattle.soundness.specs.Verdict.{slot_verdict, name_verdict};

use crate::medium::Medium;
use blocks::{Quarter, is_zero};
use finite::{exists, lowest};
use layout::{Entry, FILE, Refusal, has_title, title};

impl Medium<'_> {
    // Whether the card has inode i, and it is present.
    fn is_present(&self, i: usize) -> bool
        ensures { result ≡ (nat_lt i self.now.geometry.shape.inodes && present (inode_on self.now.table.now i)) }
    {
        i < self.geometry.shape.inodes && self.inode(i)[0] == FILE
    }

    // This test and the next three match, since `is_ok_and` and `is_some_and` leave their proofs open.

    // Whether an entry leads a name to a present inode.
    fn leads(&self, bytes: &Quarter) -> bool
        ensures { result ≡ (well_formed (title_of bytes.now) && (nat_lt (target bytes.now) self.now.geometry.shape.inodes
            && present (inode_on self.now.table.now (target bytes.now)))) }
    {
        match Entry::try_from(bytes) {
            Ok(entry) => self.is_present(usize::from(entry.inode)),
            Err(_) => false,
        }
    }

    // Whether the entry in slot s, if there is one, leads astray.
    fn is_wrong_slot(&self, s: usize) -> bool
        ensures { result ≡ slot_fault self.now.geometry.shape self.now.table.now s }
    {
        match self.entry(s) {
            Some(entry) => !self.leads(&entry),
            None => false,
        }
    }

    // Whether slot s holds this name.
    fn has_name(&self, s: usize, name: &[u8; 14]) -> bool
        ensures { result ≡ (not (empty (slot_on self.now.geometry.shape self.now.table.now s)) && bytes_eq name.now (title_of (slot_on self.now.geometry.shape self.now.table.now s))) }
    {
        // The name first: few slots have it, and it is found out at once.
        match self.slot(s) {
            Some(slot) => has_title(&slot, name) && !is_zero(&slot),
            None => false,
        }
    }

    // Whether slot s holds a name that an earlier one holds.
    fn is_name_twice(&self, s: usize) -> bool
        ensures { result ≡ name_fault self.now.geometry.shape self.now.table.now s }
    {
        match self.entry(s) {
            Some(entry) => {
                let name = title(&entry);
                exists(s, |t| self.has_name(t, &name))
            }
            None => false,
        }
    }

    pub(crate) fn check_slots(&self) -> Result<(), Refusal>
        ensures { result_err result ≡ slot_verdict self.now.geometry.shape self.now.table.now }
    {
        // No `map_or`: see `check_body`.
        match lowest(self.geometry.slots(), |s| self.is_wrong_slot(s)) {
            Some(s) => Err(Refusal::BadSlot(self.slot_place(s))),
            None => Ok(()),
        }
    }

    pub(crate) fn check_names(&self) -> Result<(), Refusal>
        ensures { result_err result ≡ name_verdict self.now.geometry.shape self.now.table.now }
    {
        // No `map_or`: see `check_body`.
        match lowest(self.geometry.slots(), |s| self.is_name_twice(s)) {
            Some(s) => Err(Refusal::NameTwice(self.slot_place(s))),
            None => Ok(()),
        }
    }
}
