// The chase of a tableau with functional and join dependencies (SPECIFICATION, The chase with join dependencies): rounds of the functional chase, after which repeated rows go and
// the first row that a join dependency asks for is added, until none is asked for or there is no room.
#![tactic(auto)]

ghost use Rattle.join_chase.specs.internal.JoinChased.{JoinChasable, IsJoinChased, IsRound};

use join_step::{next_row, with_row, without_repeats};
use query::{Dependency, JoinDependency, Tableau};

// What a round of the chase makes of a tableau: the end, with the chased tableau or none where a row more than 24 would be added, or the tableau of the next round.
// Kept as it is: `ControlFlow<Option<Tableau>, Tableau>` is this shape; its cases would not say that a round ends the chase or has a next tableau.
#[derive(Clone, Copy)]
enum Round {
    Ended(Option<Tableau>),
    Next(Tableau),
}

// One round. The schema is only named.
fn make_round(
    t: Tableau,
    schema: &[u8],
    dependencies: &[Dependency],
    joins: &[JoinDependency],
) -> Round
    requires { JoinChasable t schema.now dependencies.now joins.now }
    ensures { IsRound t schema.now dependencies.now joins.now result }
{
    let chased = chase::chase(t, dependencies);
    let functional = chased.query;
    if joins.is_empty() {
        return Round::Ended(Some(functional));
    }
    let settled = without_repeats(functional);
    let Some(next) = next_row(settled, joins) else {
        return Round::Ended(Some(settled));
    };
    if settled.size == 24 {
        return Round::Ended(None);
    }
    Round::Next(with_row(settled, next.relation, next.row))
}

// The chase, or none where a row more than 24 would be added. With no join dependency held it is the functional chase, repeated rows and all.
pub fn chase(
    t: Tableau,
    schema: &[u8],
    dependencies: &[Dependency],
    joins: &[JoinDependency],
) -> Option<Tableau>
    requires { JoinChasable t schema.now dependencies.now joins.now }
    ensures { IsJoinChased t schema.now dependencies.now joins.now result }
{
    let mut tableau = t;
    loop {
        match make_round(tableau, schema, dependencies, joins) {
            Round::Ended(outcome) => return outcome,
            Round::Next(query) => tableau = query,
        }
    }
}
