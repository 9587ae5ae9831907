// The machine: every step of PTSOsyn, a run judged, the work left.
// Document 01, "The machine's steps"; specs/ has the definitions that the contracts cite.
#![tactic(auto)]

pub mod blocker;
pub mod cells;
mod change;
mod fit;
mod fitted;
mod issue;
mod look;
mod moves;
mod rule;
pub mod runs;
pub mod sizes;
pub mod steps;
pub mod work;

pub use runs::{judge, judge_bytes};
pub use steps::{start, step};
pub use work::{full_length, work_left};
