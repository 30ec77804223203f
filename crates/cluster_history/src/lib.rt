//! The cluster with what no code stores and the argument needs (logs, floors, levels), and each of its
//! repositories as the argument over one repository sees it.
#![tactic(auto)]
