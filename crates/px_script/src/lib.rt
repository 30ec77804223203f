//! The lines of a script: the events that they ask for, how each is spelled, and the reader of a
//! line. A family of lines has one file of readers, one in specs/ of how its lines are spelled and one
//! of what is read, and one in proofs/. The families are the lines on votes, those on storages and
//! repositories, those on pushes, those on replication jobs, and those on reads and repairs.
#![tactic(auto)]

mod clusters;
mod cut;
mod event;
mod jobs;
mod laws;
mod line_words;
mod number;
mod push_lists;
mod pushes;
mod reader;
mod repairs;
mod script_line;
mod voter_list;
mod votes;

pub use event::Event;
pub use laws::{lines_ask_for_spelled_operations, no_line_asks_two};
pub use reader::read_line;
pub use script_line::ScriptLine;
