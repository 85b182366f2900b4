// The engine: one rule, one alphabet and the rows in use.

#![tactic(auto)]

mod calls;
mod walking;

pub use calls::{Answer, Call, Engine};
pub use walking::{LONGEST, Walked, walk};
