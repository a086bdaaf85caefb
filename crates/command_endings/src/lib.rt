//! How each command ends: what it makes of what was read, the line of each stop, and the statuses.
#![tactic(auto)]

pub mod check;
mod counts;
pub mod deficiency_command;
pub mod demo;
pub mod edits;
pub mod extend;
pub mod mus;
mod numbers;
mod protect;
pub mod reduce;
pub mod reduce_general;
pub mod report;
mod rows;
pub mod solve;
pub mod verify;
