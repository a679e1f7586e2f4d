// What the search for a mapping is given: the candidates of each row of a source, and which candidates of two rows go together.
#![tactic(auto)]

mod agree; // agree.rt: whether images of two rows are consistent
mod cuts; // cuts.rt: a table cut to the candidates that meet in two columns
pub mod marks; // marks.rt: masks of the numbers that pass a test
mod shared; // shared.rt: the columns in which rows share variables
pub mod table; // table.rt: the candidates, and the table of those that go together
