//! How many nodes a tree has at most, for the tokens of its text.
//!
//! A table of a grammar with actions passes a test (`are_few` in `specs/Counts.antt`) where each of its productions makes
//! no more nodes than its tokens pay for. A proof computes that once for a table; then it holds of each text.
#![tactic(auto)]

ghost use Rattle.node_count.specs.Counts.{CountLaw};

/// The tree of a text has no more nodes than the text has tokens, and one, where the table passes the test. It does
/// nothing: its contract is a law.
pub fn count_law()
    ensures { CountLaw }
{}
