//! Git's objects as bytes: their names, the forms of the four kinds, and what they link to.
#![tactic(auto)]

mod form;
mod kinds;
mod laws;
mod name;
mod read_fault;
mod tree;

pub use kinds::{LinkFault, check, links};
pub use laws::{a_fault_is_the_first_bad_byte, what_is_read_is_spelled};
pub use name::name_of;
