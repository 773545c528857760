// A script of the independent program played on the proved server: what a record of it says, the call that it asks for, and
// what differs from what it expects. The format is that of oracle/README.md.
#![tactic(auto)]

mod progress;
mod records;

pub use progress::{Damage, Note, Notes, Progress, Turn, begin, on_record};
