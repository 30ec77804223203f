//! The core: the book, which storages are up, the transactions, the turns of pushes, the counts of
//! reads and the queue of replication jobs, and one step for each operation.
#![tactic(auto)]

mod bookings;
mod books;
mod casts;
mod dequeue;
mod factor;
mod fault;
mod jobs;
mod names;
mod planned;
mod pushes;
mod readers;
mod reads;
mod refusal;
mod repairs;
mod replicas;
mod state;
mod step;
mod votes;
mod work;

pub use pushes::Beginning;
pub use state::Core;
pub use work::Work;
