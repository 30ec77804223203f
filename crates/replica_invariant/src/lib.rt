//! What is always so of the replicas of one repository, and what each event may do to them. The proofs
//! that each event keeps it stand in the crates above.
#![tactic(auto)]
