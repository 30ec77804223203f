//! Tests of objects, their stores, and closure; and of references.
#![tactic(auto)]

#[cfg(test)]
mod format;
#[cfg(test)]
mod prepared;
#[cfg(test)]
mod references;
#[cfg(test)]
mod store;
#[cfg(test)]
mod words;
