// The rule of relations, dependencies, queries and places as tests: one function a test, callees first; those that need the schema are methods of it.
// Each answers what its namesake in query/specs/Rule says of the same fields.
#![tactic(auto)]

ghost use Rattle.std.specs.Prelude.{Bool, true, cond, ◌&&◌, ◌≡◌, ◌+◌, ◌*◌, ◌-◌, ◌^◌, ◌≤◌, eqb, ltb, length, take, drop, get_or, replicate};
ghost use mathlib.Core.List.{◌++◌, map, flatten};
ghost use Rattle.theory.specs.Query.{member, subset, variables_of, row_entries};
ghost use Rattle.query.specs.View.{entries_of, rows_of, columns_of};
ghost use Rattle.limits.specs.internal.Entries.{names_variable, safe_cell};
ghost use Rattle.limits.specs.internal.Answers.{AnswersAs};
ghost use Rattle.query.specs.Rule.{blank_cell, blank_dependency, blank_query, good_relations, good_set, good_join_set, good_dependency, good_dependencies, good_cell, good_row, good_rows, good_query, head_safe, good_place};
ghost use Rattle.query.specs.Rule.{blank_join, good_join, good_joins};
ghost use Rattle.query.specs.Rule.{blank_pair, good_pair, apart, pair_fits, all_fit, good_codes};
ghost use Rattle.limits.specs.internal.Schema.{widths_in};
ghost use Rattle.lists.specs.Tests.{between, every, in_use, is_zero};
ghost use Rattle.lists.specs.Numbers.{numbers_where};

pub mod schema; // schema.rt: how many relations there are, and how many columns each has

use query::{
    Cell, CodePair, Dependency, Entry, JoinDependency, NO_CELL, NO_CODE_PAIR, NO_DEPENDENCY,
    NO_JOIN_DEPENDENCY, Place, Query,
};
use schema::Schema;

// ---- arrays whose first elements are in use
// Kept as it is: what is judged of an array is what is in use and that the rest is blank, so it comes whole, with the count beside it.

// Whether the first n elements are good, and those after them blank.
fn in_use<T, G: Fn(&T) -> bool, B: Fn(&T) -> bool>(xs: &[T], n: usize, good: G, blank: B) -> bool
    requires good_callable { G.IsAlwaysCallable good }
    requires blank_callable { B.IsAlwaysCallable blank }
    ensures { (is_good is_blank : T → Bool) → AnswersAs G.Fn good is_good → AnswersAs B.Fn blank is_blank → result ≡ in_use n is_good is_blank xs.now }
{
    xs.iter().take(n).all(good) && xs.iter().skip(n).all(blank)
}

// Whether numbers that are not in use are 0.
pub fn all_zero(numbers: &[u8]) -> bool
    ensures { result ≡ every is_zero numbers.now }
{
    numbers.iter().all(|n| *n == 0)
}

// ---- cells

// Whether an entry in use is within the limits.
pub fn cell_good(c: &Cell) -> bool
    ensures { result ≡ good_cell c.now }
{
    match c.entry {
        Entry::Constant(n) => n <= 2147483647,
        Entry::Variable(v) => v <= 95,
    }
}

// Whether an entry is that of a cell not in use.
// Kept as it is: this and `dependency_blank`, `join_blank`, `cell_names` below name a derived `==`, and the clause is the definition that the rule names.
pub fn cell_blank(c: &Cell) -> bool
    ensures { result ≡ blank_cell c.now }
{
    *c == NO_CELL
}

// Whether the first n cells are good, and those after them blank.
pub fn cells_good(cells: &[Cell], n: usize) -> bool
    ensures { result ≡ in_use n good_cell blank_cell cells.now }
{
    in_use(cells, n, cell_good, cell_blank)
}

// Whether every cell is blank.
pub fn cells_blank(cells: &[Cell]) -> bool
    ensures { result ≡ every blank_cell cells.now }
{
    cells.iter().all(cell_blank)
}

// ---- relations

// Whether there are 1 to 8 relations of 1 to 8 columns, and no width beyond them.
pub fn relations_good(relations: u8, widths: [u8; 8]) -> bool
    ensures { result ≡ good_relations relations widths }
{
    1 <= relations
        && relations <= 8
        && in_use(
            &widths,
            relations as usize,
            |w| 1 <= *w && *w <= 8,
            |w| *w == 0,
        )
}

// ---- pairs of codes

// Whether a pair of codes is that of a slot not in use.
fn pair_blank(p: &CodePair) -> bool
    ensures { result ≡ blank_pair p.now }
{
    *p == NO_CODE_PAIR
}

// Whether two pairs of codes may be held together.
fn apart(p: CodePair, q: &CodePair) -> bool
    ensures { result ≡ apart p q.now }
{
    p.old != q.old && p.old != q.current && p.current != q.old
}

// Whether a pair has two codes, which differ.
fn pair_good(p: CodePair) -> bool
    ensures { result ≡ good_pair p }
{
    p.old <= 2147483647 && p.current <= 2147483647 && p.old != p.current
}

// Whether a pair of codes may be held beside each of some others.
fn apart_from(others: &[CodePair], p: CodePair) -> bool
    ensures { result ≡ every (apart p) others.now }
{
    others.iter().all(|q| apart(p, q))
}

// Whether a pair of codes may be held beside some others: what refusal 18 asks.
#[tactic(auto, using(std::proofs::lemmas::Bool::Decides::nat_tests), unfolding(query::specs::Rule::pair_fits))]
pub fn pair_fits(others: &[CodePair], p: CodePair) -> bool
    ensures { result ≡ pair_fits others.now p }
{
    pair_good(p) && apart_from(others, p)
}

// Whether each of some pairs of codes may be held beside those after it.
fn all_fit(pairs: &[CodePair]) -> bool
    ensures { result ≡ all_fit pairs.now }
{
    let mut rest = pairs;
    while let Some((p, others)) = rest.split_first() {
        if !pair_fits(others, *p) {
            return false;
        }
        rest = others;
    }
    true
}

// Whether pairs of codes are those of slots not in use.
fn pairs_blank(pairs: &[CodePair]) -> bool
    ensures { result ≡ every blank_pair pairs.now }
{
    pairs.iter().all(pair_blank)
}

// Whether at most 16 pairs of codes are held, which may be held together, and no slot beyond them is in use.
#[tactic(auto, using(std::proofs::lemmas::Bool::Decides::nat_tests), unfolding(query::specs::Rule::good_codes))]
pub fn codes_good(coded: u8, codes: [CodePair; 16]) -> bool
    ensures { result ≡ good_codes coded codes }
{
    coded <= 16 && all_fit(&codes[..coded as usize]) && pairs_blank(&codes[coded as usize..])
}

// ---- dependencies

// Whether a dependency is that of a slot not in use.
fn dependency_blank(d: &Dependency) -> bool
    ensures { result ≡ blank_dependency d.now }
{
    *d == NO_DEPENDENCY
}

// Whether sets of columns together are all columns of a relation of the given width.
// Kept as it is: the sets are always 4, and their union is no longer in this form than as a fold with a closure.
pub fn sets_cover(sets: [u8; 4], width: u8) -> bool
    requires { (width ≤ 8) × (every (λ set. ltb set (2 ^ width)) sets ≡ true) }
    ensures { result ≡ subset (numbers_where (λ c. true) 0 width) (flatten (map columns_of sets)) }
{
    let covered = sets[0] | sets[1] | sets[2] | sets[3];
    u16::from(covered) + 1 == 1u16 << width
}

// Whether a join dependency is that of a slot not in use.
fn join_blank(j: JoinDependency) -> bool
    ensures { result ≡ blank_join j }
{
    j == NO_JOIN_DEPENDENCY
}

// ---- queries

// How many entries of a query's head are in use: none of a query without rows.
pub fn head_in_use(arity: u8, size: u8) -> usize
    ensures { result ≡ cond (eqb size 0) 0 arity }
{
    if size == 0 { 0 } else { arity as usize }
}

// Whether a query is that of a vacant place.
#[tactic(auto, using(std::proofs::lemmas::Bool::Decides::nat_tests), unfolding(query::specs::Rule::blank_query))]
pub fn query_blank(q: Query) -> bool
    ensures { result ≡ blank_query q }
{
    q.arity == 0
        && q.size == 0
        && cells_blank(&q.head)
        && all_zero(&q.relations)
        && cells_blank(&q.cells)
}

// Whether an entry is the given variable.
fn cell_names(c: &Cell, v: u8) -> bool
    ensures { result ≡ names_variable v c.now }
{
    c.entry == Entry::Variable(v)
}

// Whether a variable stands in some cells.
// Kept as it is: `stands` of `mapping` and of `replacement` test the same for clauses in words of their own; one function would carry all three clauses.
pub fn cells_have(cells: &[Cell], v: u8) -> bool
    ensures { result ≡ member v (variables_of (entries_of cells.now)) }
{
    cells.iter().any(|c| cell_names(c, v))
}

// ---- what a schema tells of a stored value

impl Schema {
    // The width of a relation, 0 of an unknown one.
    pub fn width_of(self, relation: u8) -> u8
        ensures { result ≡ get_or (widths_in self) relation 0 }
    {
        if relation < self.relations {
            self.widths[relation as usize]
        } else {
            0
        }
    }

    // Whether a relation is known and a set of columns, which may be empty, is a set of its columns.
    #[tactic(auto, using(std::proofs::lemmas::Bool::Decides::nat_tests), unfolding(query::specs::Rule::good_set))]
    pub fn set_good(self, relation: u8, left: u8) -> bool
        ensures { result ≡ good_set (widths_in self) relation left }
    {
        relation < self.relations && u16::from(left) < 1u16 << self.width_of(relation)
    }

    // Whether a dependency names a known relation, a set of its columns, which may be empty, and one of its columns.
    #[tactic(auto, using(std::proofs::lemmas::Bool::Decides::nat_tests), unfolding(query::specs::Rule::good_dependency))]
    pub fn dependency_good(self, d: Dependency) -> bool
        ensures { result ≡ good_dependency (widths_in self) d }
    {
        self.set_good(d.relation, d.left) && d.right < self.width_of(d.relation)
    }

    // Whether at most 32 dependencies are held, each good, and no slot beyond them is in use.
    pub fn dependencies_good(self, held: u8, dependencies: [Dependency; 32]) -> bool
        ensures { result ≡ good_dependencies (widths_in self) held dependencies }
    {
        held <= 32
            && in_use(
                &dependencies,
                held as usize,
                |d| self.dependency_good(*d),
                dependency_blank,
            )
    }

    // Whether a set of a join dependency is a nonempty set of its relation's columns.
    #[tactic(auto, using(std::proofs::lemmas::Bool::Decides::nat_tests), unfolding(query::specs::Rule::good_join_set))]
    fn join_set_good(self, relation: u8, set: u8) -> bool
        ensures { result ≡ good_join_set (widths_in self) relation set }
    {
        self.set_good(relation, set) && set != 0
    }

    // Whether the first n sets are nonempty sets of a relation's columns, and those after them empty.
    pub fn sets_good(self, relation: u8, sets: &[u8], n: usize) -> bool
        ensures { result ≡ in_use n (good_join_set (widths_in self) relation) is_zero sets.now }
    {
        in_use(
            sets,
            n,
            |set| self.join_set_good(relation, *set),
            |set| *set == 0,
        )
    }

    // Whether a join dependency names a known relation and 2 to 4 nonempty sets of its columns that together are all of them.
    #[tactic(auto, using(std::proofs::lemmas::Bool::Decides::nat_tests), unfolding(query::specs::Rule::good_join))]
    pub fn join_good(self, j: JoinDependency) -> bool
        ensures { result ≡ good_join (widths_in self) j }
    {
        2 <= j.count
            && j.count <= 4
            && self.sets_good(j.relation, &j.sets, j.count as usize)
            && sets_cover(j.sets, self.width_of(j.relation))
    }

    // Whether at most 4 join dependencies are held, each good, and no slot beyond them is in use.
    pub fn joins_good(self, joined: u8, joins: [JoinDependency; 4]) -> bool
        ensures { result ≡ good_joins (widths_in self) joined joins }
    {
        joined <= 4
            && in_use(
                &joins,
                joined as usize,
                |j| self.join_good(*j),
                |j| join_blank(*j),
            )
    }

    // Whether a row names a known relation and has good entries, one a column, and no others.
    pub fn row_good(self, relation: u8, cells: &[Cell]) -> bool
        ensures { result ≡ good_row (widths_in self) relation cells.now }
    {
        relation < self.relations && cells_good(cells, self.width_of(relation) as usize)
    }

    // Whether each row is good, row r having the 8 cells from 8 * r on.
    // Kept as it is: `named.iter().zip(cells.chunks_exact(8)).all(..)` was tried, and its proof did not close: no `YieldsList` lemma of std is for chunks.
    // That the cells are as many as 8 a row is a fact of two slices, which come from one array each.
    pub fn rows_good(self, named: &[u8], cells: &[Cell]) -> bool
        requires { 8 * length named.now ≤ length cells.now }
        ensures { result ≡ good_rows (widths_in self) named.now cells.now }
    {
        for (row, relation) in named.iter().enumerate() {
            if !self.row_good(*relation, &cells[8 * row..8 * row + 8]) {
                return false;
            }
        }
        true
    }

    // Whether a query keeps the limits and holds nothing where it is not in use: what refusal 5 asks.
    #[tactic(auto, using(std::proofs::lemmas::Bool::Decides::nat_tests), unfolding(query::specs::Rule::good_up_to))]
    pub fn query_good(self, q: Query) -> bool
        ensures { result ≡ good_query (widths_in self) q }
    {
        let rows = q.size as usize;
        q.arity <= 8
            && q.size <= 12
            && cells_good(&q.head, head_in_use(q.arity, q.size))
            && self.rows_good(&q.relations[..rows], &q.cells)
            && all_zero(&q.relations[rows..])
            && cells_blank(&q.cells[8 * rows..])
    }

    // Whether a variable stands in one of the rows of the given relations, row r having the 8 cells from 8 * r on.
    // Kept as it is: a closure over chunks would take the first `width` cells of one, and so need a clause that a chunk has 8.
    pub fn rows_have(self, named: &[u8], cells: &[Cell], v: u8) -> bool
        requires { 8 * length named.now ≤ length cells.now }
        ensures { result ≡ member v (variables_of (row_entries (rows_of (widths_in self) named.now cells.now))) }
    {
        for (row, relation) in named.iter().enumerate() {
            let width = self.width_of(*relation) as usize;
            if cells_have(&cells[8 * row..8 * row + width], v) {
                return true;
            }
        }
        false
    }

    // Whether an entry of a query's head is a constant or stands in a row.
    fn cell_safe(self, q: &Query, c: &Cell) -> bool
        requires { q.now.size ≤ 12 }
        ensures { result ≡ safe_cell (variables_of (row_entries (rows_of (widths_in self) (take q.now.size q.now.relations) q.now.cells))) c.now }
    {
        match c.entry {
            Entry::Constant(_) => true,
            Entry::Variable(v) => self.rows_have(&q.relations[..q.size as usize], &q.cells, v),
        }
    }

    // Whether each head variable stands in a row: what refusal 6 asks of a query that keeps the limits.
    pub fn head_safe(self, q: Query) -> bool
        requires { (q.arity ≤ 8) × (q.size ≤ 12) }
        ensures { result ≡ head_safe (widths_in self) q }
    {
        q.head[..q.arity as usize]
            .iter()
            .all(|c| self.cell_safe(&q, c))
    }

    // Whether a filled place holds a good query with a safe head, or a vacant one holds nothing.
    pub fn place_good(self, p: Place) -> bool
        ensures { result ≡ good_place (widths_in self) p }
    {
        if p.filled {
            self.query_good(p.query) && self.head_safe(p.query)
        } else {
            query_blank(p.query)
        }
    }

    // Whether every place is good.
    pub fn places_good(self, places: [Place; 8]) -> bool
        ensures { result ≡ every (good_place (widths_in self)) places }
    {
        places.iter().all(|p| self.place_good(*p))
    }
}
