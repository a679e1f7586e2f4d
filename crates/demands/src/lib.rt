// The three demands (SPECIFICATION, The demands) as contracts on the public calls. A function makes one call, or for files
// two, and adds nothing: read its body too. Its contract is the demand.
#![tactic(auto)]

pub mod demand1; // demand1.rt: every call is refused in order, or leaves what is due
pub mod demand2; // demand2.rt: containment, answers, files
pub mod demand3; // demand3.rt: the shortest query
