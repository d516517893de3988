// A line of `drive`'s script: the call that it names, its numbers held to the call's kinds, and values made of them. docs/DRIVE.md has the lines.
#![tactic(auto)]

pub mod calls;
pub mod kinds;
pub mod numbers;
pub mod values;
