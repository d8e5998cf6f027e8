// Why a call is refused, or a medium is not accepted.
ghost use Rattle.std.specs.Prelude.{◌≡◌};
ghost use Rattle.layout.specs.Refusals.{number as number_of, place as place_of};

use std::error::Error;
use std::fmt;

// The first byte of what is at fault on a medium.
#[derive(Clone, Copy, Debug, PartialEq, Eq)]
pub struct Place {
    pub block: usize,
    pub byte: usize,
}

impl fmt::Display for Place {
    fn fmt<W: fmt::Write>(&self, f: &mut fmt::Formatter<W>) -> fmt::Result {
        write!(f, "block {}, byte {}", self.block, self.byte)
    }
}

#[derive(Clone, Copy, Debug, PartialEq, Eq)]
pub enum Refusal {
    // the host asked for what cannot be
    MalformedName,
    NoSuchName,
    NameExists,
    // the view no longer has the name, but a standing copy of its block still does
    NameLeaving,
    // a part or a slot past the last
    OutOfRange,
    // a buffer that is not as long as a part
    WrongLength,
    NoSuchBlock,
    BadGeometry,
    NotAttached,
    AlreadyAttached,
    // the store has none, or nothing to do
    NoFreeInode,
    NoFreeSlot,
    NoFreeBlock,
    NotDue,
    UnderWay,
    NoneWaiting,
    // the device can take no more
    DeviceFull,
    // a medium is not sound
    BadSize(Place),
    BadMagic(Place),
    BadVersion(Place),
    BadHead(Place),
    BadMap(Place),
    BadInode(Place),
    BadPointer(Place),
    BadSlot(Place),
    NameTwice(Place),
    FewLinks(Place),
}

impl Refusal {
    // The number that stands for the refusal in every read-out.
    pub fn number(&self) -> u8
        ensures { result ≡ number_of self.now }
    {
        match self {
            Refusal::MalformedName => 1,
            Refusal::NoSuchName => 2,
            Refusal::NameExists => 3,
            Refusal::NameLeaving => 4,
            Refusal::OutOfRange => 5,
            Refusal::WrongLength => 6,
            Refusal::NoSuchBlock => 7,
            Refusal::BadGeometry => 8,
            Refusal::NotAttached => 9,
            Refusal::AlreadyAttached => 10,
            Refusal::NoFreeInode => 11,
            Refusal::NoFreeSlot => 12,
            Refusal::NoFreeBlock => 13,
            Refusal::NotDue => 14,
            Refusal::UnderWay => 15,
            Refusal::NoneWaiting => 16,
            Refusal::DeviceFull => 17,
            Refusal::BadSize(_) => 20,
            Refusal::BadMagic(_) => 21,
            Refusal::BadVersion(_) => 22,
            Refusal::BadHead(_) => 23,
            Refusal::BadMap(_) => 24,
            Refusal::BadInode(_) => 25,
            Refusal::BadPointer(_) => 26,
            Refusal::BadSlot(_) => 27,
            Refusal::NameTwice(_) => 28,
            Refusal::FewLinks(_) => 29,
        }
    }

    // Where a medium is at fault; the refusals of a call have no place.
    pub fn place(&self) -> Option<Place>
        ensures { result ≡ place_of self.now }
    {
        match self {
            Refusal::BadSize(p)
            | Refusal::BadMagic(p)
            | Refusal::BadVersion(p)
            | Refusal::BadHead(p)
            | Refusal::BadMap(p)
            | Refusal::BadInode(p)
            | Refusal::BadPointer(p)
            | Refusal::BadSlot(p)
            | Refusal::NameTwice(p)
            | Refusal::FewLinks(p) => Some(*p),
            _ => None,
        }
    }
}

// The number, and where a medium is at fault.
impl fmt::Display for Refusal {
    fn fmt<W: fmt::Write>(&self, f: &mut fmt::Formatter<W>) -> fmt::Result {
        match self.place() {
            Some(place) => write!(f, "{} at {place}", self.number()),
            None => write!(f, "{}", self.number()),
        }
    }
}

impl Error for Refusal {}
