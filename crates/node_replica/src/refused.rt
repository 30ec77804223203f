//! The errors of a node for those of the layers below it.

ghost use Rattle.std.specs.Prelude.{Some};
ghost use Rattle.node_replica.specs.Checks.{IsCause};
ghost use Rattle.node_calls.specs.Refusals.{of_bundle, of_updates};

use node_calls::{NodeError, NodeRefusal};
use objstore::BundleFault;
use refstore::RefRefusal;

/// Why objects may not come.
pub(crate) fn objects_refused(fault: BundleFault) -> NodeError
    ensures { IsCause (of_bundle (Some fault)) result }
{
    match fault {
        BundleFault::BadObject { index, at } => {
            NodeError::Refused(NodeRefusal::BadObject { index, at })
        }
        BundleFault::Collision { id } => NodeError::Refused(NodeRefusal::Collision { id }),
        BundleFault::Memory => NodeError::Memory,
    }
}

/// Why updates may not be done.
pub(crate) fn updates_refused(refusal: RefRefusal) -> NodeError
    ensures { IsCause (of_updates (Some refusal)) result }
{
    match refusal {
        RefRefusal::Empty => NodeError::Refused(NodeRefusal::Empty),
        RefRefusal::Void { name } => NodeError::Refused(NodeRefusal::Void { name }),
        RefRefusal::Twice { name } => NodeError::Refused(NodeRefusal::Twice { name }),
        RefRefusal::Stale { name, have } => NodeError::Refused(NodeRefusal::Stale { name, have }),
        RefRefusal::Conflict { name, with } => {
            NodeError::Refused(NodeRefusal::Conflict { name, with })
        }
        RefRefusal::TooManyRefs => NodeError::Refused(NodeRefusal::TooManyRefs),
        RefRefusal::Memory => NodeError::Memory,
    }
}
