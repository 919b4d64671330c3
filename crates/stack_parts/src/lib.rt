//! What is done with parts that were taken one after the other: all of them or none, and parts in boxes.
#![tactic(auto)]

mod found;

pub use found::{
    all_five, all_four, all_seven, all_six, all_three, all_two, boxed_three, boxed_two, boxed_with,
};
