//! The turns: which pushes are open, and which of them has the turn of a repository.
#![tactic(auto)]

mod open_push;
mod turns;

pub use open_push::OpenPush;
pub use turns::Turns;
