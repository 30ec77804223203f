//! Numbers that name things, each a type of its own.

/// The number of a transaction. The first one is 1.
#[derive(Clone, Copy, Debug, PartialEq, Eq)]
pub struct TxId(pub u64);

/// The number of a storage, in the order in which storages were admitted. The first one is 0.
#[derive(Clone, Copy, Debug, PartialEq, Eq, PartialOrd, Ord)]
pub struct StorageId(pub u32);

/// The number of a repository, in the order in which repositories were created. The first one is 0.
#[derive(Clone, Copy, Debug, PartialEq, Eq, PartialOrd, Ord)]
pub struct RepoId(pub u32);

/// The number of a replication job. The first one is 1.
#[derive(Clone, Copy, Debug, PartialEq, Eq, PartialOrd, Ord)]
pub struct JobId(pub u64);

/// The number of a decided content of a repository. That of a new repository, which is empty, is 0.
#[derive(Clone, Copy, Debug, PartialEq, Eq, PartialOrd, Ord)]
pub struct Gen(pub u64);
