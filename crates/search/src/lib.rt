// The search: the walk through all legal runs, the question that it answers, and the walk that remembers.
// Document 01, "Work left and the walk", and document 02, P7; specs/ has the definitions that the contracts cite.
#![tactic(auto)]

pub mod ask;
pub mod distinct;
mod kinds;
mod listing;
mod next;
mod operations;
mod recall;
mod rows;
mod shown;
mod sizes;
mod start;
mod table;
mod taken;
mod walk;
mod wants;

pub use ask::question;
pub use distinct::remember;
