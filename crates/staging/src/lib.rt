// A plain queue above any device, which is a device again.
#![tactic(auto)]

mod staging;
mod types;

pub use types::Staging;
