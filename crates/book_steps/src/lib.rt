//! The events of the book: what an admission, a creation, an enrolment, a new factor, fencing,
//! settling and accepting are to each repository of the cluster.
#![tactic(auto)]

mod laws;

pub use laws::{
    a_creation_goes_on, a_factor_is_set, a_replica_is_accepted, a_replica_is_settled,
    a_settling_begins, an_acceptance_begins, an_admission_goes_on, an_enrolment_goes_on,
    the_kept_answer_settles,
};
