//! What is true of every script.

ghost use Rattle.std.specs.Prelude.{◌≡◌, ℕ, List};
ghost use Rattle.script_run.specs.Machine.{Runs};
ghost use Rattle.script_run.specs.Script.{AreLinesOf};

use crate::StateMachine;

/// A law: a text has one list of lines.
pub fn a_text_has_one_list_of_lines()
    ensures { (lines others : List (List ℕ)) (text : List ℕ)
        → AreLinesOf lines text → AreLinesOf others text → lines ≡ others }
{}

/// A law: a list of events has one run, since each event has one answer.
pub fn events_have_one_run<M: StateMachine>()
    ensures { (s s' s'' : M.State) (events : List M.Event) (replies others : List M.Reply)
        → Runs M.machine s events replies s' → Runs M.machine s events others s''
        → (replies ≡ others) × (s' ≡ s'') }
{}
