//! Each delivery to a node is events of the repository that it is for, and leaves each other one.
#![tactic(auto)]

mod laws;

pub use laws::{
    abort_goes_on, apply_goes_on, commit_goes_on, fence_goes_on, loss_goes_on, make_goes_on,
    prepare_goes_on, refs_go_on, remove_goes_on, snapshot_goes_on,
};
