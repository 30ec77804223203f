//! What the reader answers to a line.

use crate::Event;

/// What a line of a script asks.
#[derive(Drop)]
pub enum ScriptLine {
    /// It is empty or a comment.
    Nothing,
    /// It asks for this event.
    Asks(Event),
    /// It is neither silent nor the spelling of an event.
    Bad,
    /// There was no room for its voters, its path, or what it pushes.
    Memory,
}
