//! Tests of keepers of rows, and of storage nodes.
#![tactic(auto)]

#[cfg(test)]
mod answers;
#[cfg(test)]
mod calls;
#[cfg(test)]
mod failing;
#[cfg(test)]
mod faulty;
#[cfg(test)]
mod fields;
#[cfg(test)]
mod keeper;
#[cfg(test)]
mod many;
#[cfg(test)]
mod names;
#[cfg(test)]
mod objects;
#[cfg(test)]
mod opening;
#[cfg(test)]
mod pushes;
#[cfg(test)]
mod shelf;
#[cfg(test)]
mod words;
