//! What a storage node has of one repository, and what each call does to it.
#![tactic(auto)]

mod copies;
mod kept;
mod refused;
mod replica;

pub use kept::keep;
pub use replica::{Ready, Replica};
