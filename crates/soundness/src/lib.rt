// Sound media, and the judgement of any.
#![tactic(auto)]

mod head;
mod inodes;
mod judgement;
mod maps;
mod medium;
mod pointers;
mod slots;

pub use head::read_head;
pub use judgement::judge;
