//! References: their maps, the text that Git's hook is given of a push and the vote on it, and lists of
//! updates that are checked and ready to be done.
#![tactic(auto)]

mod checks;
mod conflict;
mod hook;
mod laws;
mod planned;
mod prepared;
mod ref_map;
mod refs;

pub use hook::{hook_text, vote_of};
pub use laws::{each_name_is_set_or_taken_away, two_lists_of_one_text_are_one};
pub use prepared::{Prepared, RefRefusal};
pub use ref_map::RefMap;
pub use refs::Refs;
