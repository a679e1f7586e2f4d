// What the programs that run examples share.
#![tactic(auto)]

pub mod queries; // queries.rt: the queries that are put, and the records that hold them
pub mod show; // show.rt: how answers are written
