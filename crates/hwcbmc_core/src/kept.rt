//! What is kept of a run of the command.

use pair_proof::Proof;

/// What is kept behind an answer.
#[derive(Drop)]
pub enum Kept {
    /// The answer has no proof.
    Nothing,
    /// The proof of a success or of a spent budget.
    Proof(Proof),
}

/// What a run of the command leaves.
#[derive(Drop)]
pub struct Ran {
    /// The exit status.
    pub status: u8,
    /// The proof of the answer, also where a write fault took the place of its status.
    pub kept: Kept,
}
