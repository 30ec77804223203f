//! The rows of the queue: its jobs, by number.

ghost use Rattle.std.specs.Prelude.{◌≡◌, ◌++◌, ◌∷◌, [], not, ◌==◌, filter, find, map, Some, OnOk, OnErr};
ghost use Rattle.std.specs.BTreeMap.{insert_entry};
ghost use Rattle.std.specs.List.Sorted.{IsStrictlySortedBy};
ghost use Rattle.std.specs.Map.{keys_of};
ghost use Rattle.std.specs.Option.{option_copied};
ghost use Rattle.std.specs.Ordering.{nat_cmp};
ghost use Rattle.px_ops.specs.declared.job.Job.{Job as Recorded};
ghost use Rattle.replqueue.specs.Rows.{AreAscending, changed_at, has_number, is_among};

use px_base::JobId;
use px_ops::Job;
use std::alloc::{AllocError, Global};
use std::collections::BTreeMap;
use std::marker::Model;

// Jobs by their numbers.
type Numbered = BTreeMap<u64, Job>;

/// Jobs in the order of their numbers. One is found by its number in logarithmic time.
#[derive(Drop)]
pub(crate) struct Rows {
    rows: Numbered,
}

impl Model for Rows {
    ghost use Rattle.std.specs.Prelude.{List};
    ghost use Rattle.std.specs.Map.{values_of};
    ghost use Rattle.px_ops.specs.declared.job.Job.{Job};
    ghost use Rattle.replqueue.specs.Rows.{AreRows};

    ghost Value = { List Job };

    ghost view = { λ r. values_of r.rows.entries };

    ghost invariant = { λ r. AreRows r.rows.entries };
}

impl Rows {
    /// No jobs.
    pub(crate) fn new(alloc: Global) -> Rows
        ensures { result ≡ [] }
    {
        Rows {
            rows: BTreeMap::new(alloc),
        }
    }

    /// The job of a number.
    pub(crate) fn get(&self, number: JobId) -> Option<&Job>
        ensures value { option_copied result ≡ find (has_number number.0) self.now }
        ensures ascend { AreAscending self.now }
    {
        self.rows.get(&number.0)
    }

    /// The job of a number goes, where there is one.
    pub(crate) fn remove(&mut self, number: JobId)
        ensures value { self.new
            ≡ filter (λ (job : Recorded). not (job.number.0 == number.0)) self.old }
        ensures ascend { AreAscending self.new }
    {
        self.rows.remove(&number.0);
    }

    /// A job stands in the place of the one of its number.
    pub(crate) fn replace(&mut self, job: Job)
        ensures value { (change : Recorded → Recorded) (before : Recorded)
            → find (has_number job.number.0) self.old ≡ Some before → job ≡ change before
            → self.new ≡ map (changed_at job.number.0 change) self.old }
        ensures ascend { AreAscending self.new }
    {
        if let Some(kept) = self.rows.get_mut(&job.number.0) {
            *kept = job;
        }
    }

    /// More jobs come, whose numbers are above all others and ascend. Where memory wants, none
    /// comes.
    pub(crate) fn push_all(&mut self, jobs: &[Job]) -> Result<(), AllocError>
        requires { AreAscending (self.old ++ jobs.now) }
        ensures ok { OnOk result (self.new ≡ self.old ++ jobs.now) }
        ensures err { OnErr result (self.new ≡ self.old) }
        ensures ascend { AreAscending self.new }
    {
        for job in jobs {
            if self.push(*job).is_err() {
                self.remove_each(jobs);
                return Err(AllocError);
            }
        }
        Ok(())
    }

    // One more job comes.
    fn push(&mut self, job: Job) -> Result<(), AllocError>
        requires { AreAscending (self.old ++ job ∷ []) }
        ensures ok { OnOk result (self.new ≡ self.old ++ job ∷ []) }
        ensures err { OnErr result (self.new ≡ self.old) }
    {
        put(&mut self.rows, job)
    }

    // The jobs of these numbers go.
    fn remove_each(&mut self, jobs: &[Job])
        ensures { self.new ≡ filter (λ (job : Recorded). not (is_among jobs.now job)) self.old }
    {
        for job in jobs {
            self.remove(job.number);
        }
    }
}

// The job stands under its number.
fn put(rows: &mut Numbered, job: Job) -> Result<(), AllocError>
    ensures ok { OnOk result (rows.new.entries
        ≡ insert_entry nat_cmp rows.old.entries job.number.0 job) }
    ensures ascend { IsStrictlySortedBy nat_cmp (keys_of rows.new.entries) }
    ensures err { OnErr result (rows.new.entries ≡ rows.old.entries) }
{
    match rows.insert(job.number.0, job) {
        Ok(_) => Ok(()),
        Err(_) => Err(AllocError),
    }
}
