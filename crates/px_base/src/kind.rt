//! What a Git object is.

/// What an object is (gitglossary(7)).
#[derive(Clone, Copy, Debug, PartialEq, Eq)]
pub enum Kind {
    /// A state of the project: a tree, and the commits that it comes after.
    Commit,
    /// A directory: names, and the object of each.
    Tree,
    /// The content of a file.
    Blob,
    /// An annotated tag: a name for another object.
    Tag,
}
