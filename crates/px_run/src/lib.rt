//! The top call of the program: the words of its command line in, a status out.
#![tactic(auto)]

mod arguments;
mod message;
mod status;
mod top;

pub use arguments::{start, start_without_memory};
pub use status::Status;
pub use top::run;
