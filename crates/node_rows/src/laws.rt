//! What is true of the rows of a node. A law is a function with nothing in it: what it ensures is
//! proved for all values.

ghost use Rattle.std.specs.Prelude.{◌≡◌, ◌<◌, ℕ, List};
ghost use Rattle.px_keeper.specs.Row.{Rows};
ghost use Rattle.px_keeper.specs.declared.row_key.RowKey.{RowKey};
ghost use Rattle.node_rows.specs.BadRow.{AreGood, IsFirstBad};
ghost use Rattle.node_calls.specs.Lawful.{IsLawful};
ghost use Rattle.node_calls.specs.ReplicaState.{NodeState, without_ready};
ghost use Rattle.node_rows.specs.Rows.{StandFor};

/// Rows stand for at most one node, but for the pushes that are ready, of which no row tells.
pub fn rows_stand_for_at_most_one_node()
    ensures { (rows : Rows) (node other : NodeState) → IsLawful node → IsLawful other
        → StandFor rows node → StandFor rows other → (path : List ℕ)
        → without_ready (node path) ≡ without_ready (other path) }
{}

/// Rows that stand for a node are all good, and so none is the first bad one.
pub fn rows_of_a_node_are_good()
    ensures good { (rows : Rows) (node : NodeState) → IsLawful node → StandFor rows node
        → AreGood rows }
    ensures none { (rows : Rows) (node : NodeState) (row : RowKey) → IsLawful node
        → StandFor rows node → row.table < 256 → ¬ (IsFirstBad rows row) }
{}

/// Rows that are all good stand for a node, which has what a node may have.
pub fn good_rows_stand_for_a_node()
    ensures { (rows : Rows) → AreGood rows
        → (node : NodeState) × IsLawful node × StandFor rows node }
{}

/// At most one row is the first bad one.
pub fn one_row_is_the_first_bad_one()
    ensures { (rows : Rows) (row other : RowKey) → IsFirstBad rows row → IsFirstBad rows other
        → row ≡ other }
{}
