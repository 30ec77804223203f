//! What was issued to nodes: of each lease what it was drawn for, and which answer is kept.
#![tactic(auto)]

mod draw;
mod draws;
mod issued;
mod purpose;
mod pushes;
mod room;
mod works;

pub use issued::Issued;
pub use purpose::Purpose;
