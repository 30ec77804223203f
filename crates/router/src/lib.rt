//! The router: where a read goes, who takes part in a push, and which storages are assigned.
#![tactic(auto)]

mod factor;
mod hosts;
mod push_fault;
mod push_route;
mod read_route;

pub use factor::{assignment, may_assign};
pub use hosts::primary;
pub use push_fault::PushFault;
pub use push_route::{PushRoute, may_push, route_push};
pub use read_route::{PushUnderway, ReadRoute, route_read};
