//! The rows that a storage node keeps of its repositories: what they say, and how they are written
//! and read.
#![tactic(auto)]

mod laws;
mod reading;
mod rows;

pub use laws::{
    good_rows_stand_for_a_node, one_row_is_the_first_bad_one, rows_of_a_node_are_good,
    rows_stand_for_at_most_one_node,
};
pub use reading::{ReplicaRow, parts_of, read_id, read_object, read_replica};
pub use rows::{add_objects, add_push, add_refs, begun, remove_objects};
