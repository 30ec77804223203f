//! Tests of replication jobs: the queue, the plan of the reconciler, and what becomes of a job that
//! is taken.
#![tactic(auto)]

#[cfg(test)]
mod cluster_calls;
#[cfg(test)]
mod plans;
#[cfg(test)]
mod queue_calls;
#[cfg(test)]
mod queues;
#[cfg(test)]
mod rows;
#[cfg(test)]
mod sources;
#[cfg(test)]
mod takings;
#[cfg(test)]
mod words;
