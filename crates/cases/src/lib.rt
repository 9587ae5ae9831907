// Cases: any bytes read or refused, any case written, and back again.
// Document 01, "Records of a case" and "Refusal numbers"; specs/ has the definitions that the contracts cite.
#![tactic(auto)]

mod bytes;
pub mod case;
pub mod checks;
pub mod draft;
pub mod fault;
pub mod lines;
pub mod operations;
pub mod reader;
pub mod record;
pub mod seats;
pub mod sizes;
pub mod writer;

pub use draft::empty_case;
pub use reader::{read, unread};
pub use writer::{reads_back, write};
