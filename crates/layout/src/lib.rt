// The layout of a card: what its blocks hold, the numbers of the refusals, and an empty card.
#![tactic(auto)]

mod empty;
mod entry;
mod geometry;
mod inode;
mod malformed;
mod name;
mod refusal;
mod region;

pub use empty::prepare;
pub use entry::{Entry, has_title, title};
pub use geometry::{Geometry, Shape};
pub use inode::{FILE, Inode};
pub use malformed::Malformed;
pub use name::Name;
pub use refusal::{Place, Refusal};
pub use region::Region;
