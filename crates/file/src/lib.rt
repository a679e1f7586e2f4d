// The two calls on archive files: reading one into a record and writing a record as one. That each undoes the other is in specs/RoundTrip.antt.
// `read_record` reads as `read` does, and answers the record or the refusal alone.
#![tactic(auto)]

pub use reader::{read, read_record};
pub use writer::write;
