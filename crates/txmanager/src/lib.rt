//! Transactions: several votes of one panel in a row, in rounds of two phases, and the manager that
//! keeps those that are open.
#![tactic(auto)]

mod carry;
mod key;
mod laws;
mod manager;
mod refusal;
mod subs;
mod transaction;

pub use laws::{
    a_committed_hash_is_named_by_a_quorum, a_stop_goes_from_the_last_to_the_first,
    acts_come_to_votes_by_the_rule, calls_come_to_votes_by_the_rule,
    each_subtransaction_keeps_its_outcome, only_who_is_out_is_canceled, other_transactions_stay,
    the_carrying_over_leaves_the_current_one, the_current_one_never_moves_back,
    who_is_committed_stays_committed, who_is_out_is_canceled_in_each_later_one,
    who_votes_is_committed_in_each_earlier_one,
};
pub use manager::{Manager, are_lawful_rounds};
pub use refusal::{RegisterRefusal, TxRefusal};
pub use transaction::Transaction;
