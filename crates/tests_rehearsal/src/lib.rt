//! Tests of the rehearsal, from the words of the command line to the status.
#![tactic(auto)]

#[cfg(test)]
mod accepting;
#[cfg(test)]
mod creations;
#[cfg(test)]
mod ends;
#[cfg(test)]
mod faults;
#[cfg(test)]
mod job_refusals;
#[cfg(test)]
mod job_turns;
#[cfg(test)]
mod jobs;
#[cfg(test)]
mod late;
#[cfg(test)]
mod limits;
#[cfg(test)]
mod lines;
#[cfg(test)]
mod many;
#[cfg(test)]
mod members;
#[cfg(test)]
mod node_refusals;
#[cfg(test)]
mod pushes;
#[cfg(test)]
mod reads;
#[cfg(test)]
mod refusals;
#[cfg(test)]
mod repair_refusals;
#[cfg(test)]
mod rows;
#[cfg(test)]
mod runs;
#[cfg(test)]
mod scripts;
#[cfg(test)]
mod settling;
#[cfg(test)]
mod worlds;
