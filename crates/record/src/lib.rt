// The record of relations, dependencies and saved queries: its types, its rule, and the calls that add a pair of codes or a dependency and put a query.
#![tactic(auto)]

pub mod rule; // rule.rt: whether a record is as SPECIFICATION, The record, describes
pub mod calls; // calls.rt: add a pair of codes or a dependency of either kind, put a query, look up a place

use query::{CodePair, Dependency, JoinDependency, Place};
use refusals::Refusal;

// The record: there are `relations` relations, relation r has widths[r] columns, the first `coded` pairs of codes are held, the first `held` functional
// dependencies and the first `joined` join dependencies.
// Kept as it is: memory is fixed, so each array has its full room, and refusal 14 judges also what is not in use: the counts stand beside arrays.
#[derive(Clone, Copy)]
pub struct Record {
    pub relations: u8,
    pub widths: [u8; 8],
    pub coded: u8,
    pub codes: [CodePair; 16],
    pub held: u8,
    pub dependencies: [Dependency; 32],
    pub joined: u8,
    pub joins: [JoinDependency; 4],
    pub places: [Place; 8],
}

// A call's answer, done or refused, with the record after it. A refused call hands back the record that it was given.
// Kept as it is: a refused call hands the record back, so the record stands beside the answer.
#[derive(Clone, Copy)]
pub struct Outcome {
    pub answer: Result<(), Refusal>,
    pub record: Record,
}
