//! Why a node in memory did not answer.

ghost use Rattle.std.specs.Prelude.{◌≡◌, IfErr};
ghost use Rattle.node_replica.specs.Checks.{IsNotFault};
ghost use Rattle.nodes.specs.Fault.{answer_of};

use px_node::NodeError;
use px_ops::NodeRefusal;

/// Why a node in memory did not answer. It never fails otherwise, as its keeper never does.
#[derive(Debug, Drop, PartialEq, Eq)]
pub enum NodeFault {
    /// Memory wanted.
    Memory,
    /// The node does not do this.
    Refused(NodeRefusal),
}

// The answer of a node whose keeper never fails.
pub(crate) fn told<A: Drop>(answer: Result<A, NodeError>) -> Result<A, NodeFault>
    requires { IfErr answer IsNotFault }
    ensures { answer ≡ answer_of result }
{
    match answer {
        Ok(value) => Ok(value),
        Err(NodeError::Refused(why)) => Err(NodeFault::Refused(why)),
        Err(NodeError::Memory) => Err(NodeFault::Memory),
        Err(NodeError::Fault) => unreachable!(),
    }
}
