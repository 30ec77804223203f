//! Why what rows say was not read out of a keeper.

use px_base::Bytes;

/// Why what rows say was not read out of a keeper. Each hands the keeper back, with its rows as they
/// were.
#[derive(Drop)]
pub enum OpenFault<K> {
    /// A row is bad: the first one, in the order of the tables and of the keys in a table.
    BadRow {
        /// The keeper.
        keeper: K,
        /// The number of the row's table.
        table: u8,
        /// The row's key in the table.
        key: Bytes,
    },
    /// The keeper failed, and its count rose.
    KeeperFault {
        /// The keeper.
        keeper: K,
    },
    /// Memory wanted.
    Memory {
        /// The keeper.
        keeper: K,
    },
}
