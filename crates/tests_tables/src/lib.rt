//! The player of tables: calls as lines of text, each with the answer that is wanted.
#![tactic(auto)]

mod table;

pub use table::{compare, parts, play, told};
