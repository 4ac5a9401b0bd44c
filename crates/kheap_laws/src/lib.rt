//! Laws that hold of calls on one heap, each the contract of a function that does nothing, and
//! worked calls that rest on them.
#![tactic(auto)]

pub mod chunks;
pub mod frames;
pub mod leaves;
pub mod owners;
pub mod purses;
pub mod tables;
pub mod worked_calls;
