// Demand 3: a reduction gives the shortest query with the answers of the source query.
ghost use Rattle.demands.specs.Demand3.{Shortens};

use record::Record;
use reduction::Reduced;

// The shortest query with the answers of the source query.
pub fn reduce(given: Record, source: usize, target: usize) -> Reduced
    ensures { Shortens given source target result }
{
    reduction::reduce(given, source, target)
}
