//! What every crate of the cluster speaks of: names, hashes, numbers, voters, and the streams that bytes come in and
//! go out by.
#![tactic(auto)]

mod failing;
mod hash;
mod ids;
mod items;
mod kind;
mod lease;
mod lines;
mod memory;
mod object;
mod path_list;
mod phase;
mod push;
mod ref_list;
mod ref_name;
mod repo_path;
mod sink;
mod source;
mod standard;
mod storage_name;
mod voter;
mod words;

pub use failing::FailingCalls;
pub use hash::{Hash, ObjectId, a_hash_and_its_text_are_one, is_hex_digit};
pub use ids::{Gen, JobId, RepoId, StorageId, TxId};
pub use items::{Bytes, Ids, Items};
pub use kind::Kind;
pub use lease::Lease;
pub use lines::{LineEnd, Piece, line, read_piece};
pub use memory::{MemSink, MemSource};
pub use object::{MAX_CONTENT_BYTES, Object};
pub use path_list::PathList;
pub use phase::Phase;
pub use push::{Objects, Push, Update, Updates, are_updates};
pub use ref_list::{MAX_REFS, RefList};
pub use ref_name::RefName;
pub use repo_path::RepoPath;
pub use sink::{Sink, WriteEnd, WrittenEnd, write_all};
pub use source::{HeldEnd, ReadEnd, Source};
pub use standard::{StdSink, StdSource};
pub use storage_name::{NameFault, StorageName};
pub use voter::Voter;
pub use words::Words;
