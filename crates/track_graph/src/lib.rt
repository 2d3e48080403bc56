//! The graph of an infrastructure's tracks: where the ways across its switches lead, the pieces
//! into which detectors cut its tracks, and the zones of joined pieces.
#![tactic(auto)]

mod faults;
mod flooding;
mod graphs;
mod joints;
mod laws;
mod neighbours;
mod numbering;
mod pieces;
mod positions;
mod rows;
mod stands;
mod ways;

pub use faults::GraphFault;
pub use graphs::Graph;
pub use laws::one_numbering;
pub use pieces::Piece;
pub use stands::Stand;
