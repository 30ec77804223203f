//! Numbers of jobs on lines, in order. A mark is a hint, and says nothing of its job.

ghost use Rattle.std.specs.Prelude.{◌≡◌, ◌+◌, ◌≤◌, [], true, IfNone, IfSome, OnOk};
ghost use Rattle.replqueue.specs.Marks.{KeepsAll, KeepsOthers, NoneBetween, NoneFrom, has, number_on};

use crate::mark::Mark;
use std::alloc::{AllocError, Global};
use std::collections::BTreeSet;
use std::marker::Model;
use std::ops::Bound;

/// Numbers of jobs on lines. The next one on a line is found in logarithmic time.
#[derive(Drop)]
pub(crate) struct Marks {
    marks: BTreeSet<Mark>,
}

impl Model for Marks {
    ghost use Rattle.std.specs.Prelude.{List};
    ghost use Rattle.replqueue.specs.declared.mark.Mark.{Mark};

    ghost Value = { List Mark };

    ghost view = { λ m. m.marks.keys };
}

impl Marks {
    /// No marks.
    pub(crate) fn new(alloc: Global) -> Marks
        ensures { result ≡ [] }
    {
        Marks {
            marks: BTreeSet::new(alloc),
        }
    }

    /// The next number on a line, from this one on.
    pub(crate) fn next(&self, line: u64, from: u64) -> Option<u64>
        ensures some { IfSome result
            (λ number. (from ≤ number) × NoneBetween self.now line from number) }
        ensures none { IfNone result (NoneFrom self.now line from) }
    {
        let start = Mark { line, number: from };
        match self
            .marks
            .range((Bound::Included(&start), Bound::Unbounded))
            .next()
        {
            Some(mark) => on_line(*mark, line),
            None => None,
        }
    }

    /// The next number on a line, after this one.
    pub(crate) fn after(&self, line: u64, number: u64) -> Option<u64>
        ensures some { IfSome result
            (λ next. (number + 1 ≤ next) × NoneBetween self.now line (number + 1) next) }
        ensures none { IfNone result (NoneFrom self.now line (number + 1)) }
    {
        let start = Mark { line, number };
        match self
            .marks
            .range((Bound::Excluded(&start), Bound::Unbounded))
            .next()
        {
            Some(mark) => on_line(*mark, line),
            None => None,
        }
    }

    /// Marks a number on a line.
    pub(crate) fn mark(&mut self, line: u64, number: u64) -> Result<(), AllocError>
        ensures ok { OnOk result (has self.new line number ≡ true) }
        ensures others { KeepsAll self.old self.new }
    {
        self.marks.insert(Mark { line, number })?;
        Ok(())
    }

    /// Takes the mark of a number from a line.
    pub(crate) fn unmark(&mut self, line: u64, number: u64)
        ensures { KeepsOthers number self.old self.new }
    {
        self.marks.remove(&Mark { line, number });
    }

    /// Takes the mark of a number from a line, where it does not stay.
    pub(crate) fn unmark_unless(&mut self, stays: bool, line: u64, number: u64)
        ensures others { KeepsOthers number self.old self.new }
        ensures all { stays ≡ true → KeepsAll self.old self.new }
    {
        if !stays {
            self.unmark(line, number);
        }
    }
}

// The number of a mark, where it is on the line.
fn on_line(mark: Mark, line: u64) -> Option<u64>
    ensures { result ≡ number_on line mark }
{
    if mark.line == line {
        Some(mark.number)
    } else {
        None
    }
}
