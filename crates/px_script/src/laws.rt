//! What holds of the spelling of events.

ghost use Rattle.std.specs.Prelude.{◌≡◌, List, Option, Some, ℕ};
ghost use Rattle.px_ops.specs.declared.op.Op.{Op};
ghost use Rattle.px_script.specs.Spelling.{Asks, IsSpelledOp};
ghost use Rattle.px_script.specs.declared.event.Event.{Event};

/// A law: no line asks for two things.
pub fn no_line_asks_two()
    ensures { (a b : Option Event) (line : List ℕ) → Asks a line → Asks b line → a ≡ b }
{}

/// A law: the operations that lines ask for are those that name no storage by its number, and a plan
/// of jobs that they ask for is one for all repositories.
pub fn lines_ask_for_spelled_operations()
    ensures { (op : Op) (line : List ℕ) → Asks (Some (Event.Operation op)) line → IsSpelledOp op }
{}
