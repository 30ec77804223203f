//! A store of Git objects, each named by its own hash; objects that come to it together; what is reached
//! from some ids, and whether all of it is there.
#![tactic(auto)]

mod bundles;
mod laws;
mod object_map;
mod quarantine;
mod queue;
mod reached;
mod store;

pub use bundles::BundleFault;
pub use laws::{
    each_object_that_comes_stands_under_its_name, the_first_missing_id_is_one,
    what_is_reached_is_one_list,
};
pub use object_format::{LinkFault, links, name_of};
pub use object_map::ObjectMap;
pub use quarantine::Quarantine;
pub use store::{ClosedFault, Put, PutFault, Store};
