// The chase of a tableau with functional dependencies (SPECIFICATION, The chase): step after step until none is left, or until two constants clash.
#![tactic(auto)]

ghost use Rattle.std.specs.Prelude.{◌≡◌, true, List, ℕ};
ghost use Rattle.query.specs.Rule.{good_tableau};
ghost use Rattle.lists.specs.Tests.{every, between};
ghost use Rattle.first_step.specs.internal.Wide.{Chasable};
ghost use Rattle.chase.specs.internal.Outcome.{IsChased};

use first_step::find_step;
use query::{Dependency, Tableau};
use replacement::{replace, resolve};

// A chased tableau and the number of replacements that led to it.
#[derive(Clone, Copy)]
pub struct Chased {
    pub query: Tableau,
    pub count: u8,
}

// The chase: replacements until a clash, which ends it in never, or until no pair is broken.
// A tableau is read through any schema under which it is good.
pub fn chase(t: Tableau, dependencies: &[Dependency]) -> Chased
    requires { Chasable t dependencies.now }
    ensures { (schema : List ℕ) → good_tableau schema t ≡ true → every (between 1 8) schema ≡ true → IsChased schema dependencies.now t result }
{
    let mut query = t;
    let mut count: u8 = 0;
    while let Some((a, b)) = find_step(query, dependencies) {
        let Some(replacement) = resolve(&query, a, b) else {
            return Chased {
                query: Tableau::never(t.arity),
                count,
            };
        };
        query = replace(query, replacement);
        count += 1;
    }
    Chased { query, count }
}
