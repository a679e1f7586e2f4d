// The first choice of rows that breaks a join dependency, as the rows are read. The search goes through the sets of the join dependency, and for each
// through the rows that agree with those chosen before where sets overlap; at the end it looks for the row that is yielded. Whether rows can be chosen for
// some sets does not depend on their order: each next set is the one that shares most columns with those before it, so that no product of rows is gone
// through where sets that come later tie them together.
#![tactic(auto)]

ghost use Rattle.std.specs.Prelude.{◌≡◌, ◌+◌, ◌≤◌, ◌<◌};
ghost use Rattle.query.specs.View.{join_of};
ghost use Rattle.codes.specs.internal.Codes.{codes_in};
ghost use Rattle.words.specs.Words.{database_read};
ghost use Rattle.join_tables.specs.internal.Indexed.{filled_to, Searchable, Indexed};
ghost use Rattle.join_testing.specs.Unmet.{first_choice};
ghost use Rattle.join_testing.specs.internal.Search.{Searched, plainly, rows_chosen};

use codes::pairs::Codes;
use join_lookup::Index;
use query::JoinDependency;

// What a search reads: the rows, the join dependency, and its tables.
#[derive(Clone, Copy)]
struct Tables<'a> {
    codes: &'a Codes,
    schema: &'a [u8],
    words: &'a [u32],
    j: JoinDependency,
    x: Index,
    heads: &'a [u32],
    nodes: &'a [u32],
}

// The first choice of rows for the sets from set k on that goes with the values in the columns of the sets before, and yields a row that is not there: the
// words at which its rows begin.
fn search(tables: &Tables, k: usize, filled: u8, values: [u32; 8]) -> Option<[usize; 4]>
    requires searchable { Searchable tables.now.schema.now tables.now.words.now tables.now.j
        × Indexed (codes_in tables.now.codes.now) tables.now.schema.now tables.now.words.now tables.now.j tables.now.x
        tables.now.heads.now tables.now.nodes.now }
    requires k_le_count { (k ≤ tables.now.j.count) × (filled ≡ filled_to tables.now.j.sets k) }
    ensures { Searched (codes_in tables.now.codes.now) tables.now.schema.now tables.now.words.now tables.now.j tables.now.x k values result }
{
    let codes = tables.codes;
    let schema = tables.schema;
    let words = tables.words;
    let x = tables.x;
    if k == tables.j.count as usize {
        let end = join_lookup::find(
            codes,
            schema,
            words,
            x,
            filled,
            values,
            tables.heads,
            tables.nodes,
        );
        return (end == words.len()).then_some([0; 4]);
    }
    let set = tables.j.sets[k];
    let shared = set & filled;
    let mut at = join_lookup::start(schema, words, x, k + 1, shared, values, tables.heads);
    // Kept as it is: an iterator over a chain would be a struct more, with three clauses and their proofs, for this one loop.
    while at < words.len() {
        if join_lookup::has(codes, schema, words, x, at, shared, values) {
            let row = join_lookup::with_row(codes, words, x, at, set, values);
            let found = search(tables, k + 1, filled | set, row);
            if let Some(mut places) = found {
                places[k] = at;
                return Some(places);
            }
        }
        at = join_lookup::following(schema, words, x, k + 1, at, tables.nodes);
    }
    None
}

// The first choice of rows for the sets from set k on, found set by set: whether rows for the sets after k can be chosen does not depend on the order in
// which these are gone through, so the first row for set k is found with them arranged; then those for the sets after it. With one set left after k there
// is nothing to arrange.
fn choose(
    codes: &Codes,
    schema: &[u8],
    words: &[u32],
    j: JoinDependency,
    k: usize,
    filled: u8,
    values: [u32; 8],
    heads: &mut [u32],
    nodes: &mut [u32],
) -> Option<[usize; 4]>
    requires { Searchable schema.now words.now j × (k < j.count) × (filled ≡ filled_to j.sets k) }
    ensures { Searched (codes_in codes.now) schema.now words.now j (plainly schema.now j) k values result }
{
    let set = j.sets[k];
    if j.count as usize <= k + 2 {
        let x = join_tables::build(codes, schema, words, j, heads, nodes);
        let tables = Tables {
            codes,
            schema,
            words,
            j,
            x,
            heads,
            nodes,
        };
        return search(&tables, k, filled, values);
    }
    let arranged = join_order::arrange(j, k + 1, filled | set);
    let x = join_tables::build(codes, schema, words, arranged, heads, nodes);
    let tables = Tables {
        codes,
        schema,
        words,
        j: arranged,
        x,
        heads,
        nodes,
    };
    let found = search(&tables, k, filled, values)?;
    let here = found[k];
    let row = join_lookup::with_row(codes, words, x, here, set, values);
    let mut places = choose(
        codes,
        schema,
        words,
        j,
        k + 1,
        filled | set,
        row,
        heads,
        nodes,
    )?;
    places[k] = here;
    Some(places)
}

// The first choice of rows for a join dependency that yields a row that is not there: their positions, 0 where there is no set.
pub fn first_choice(
    codes: &Codes,
    schema: &[u8],
    words: &[u32],
    j: JoinDependency,
    heads: &mut [u32],
    nodes: &mut [u32],
) -> Option<[usize; 4]>
    requires { Searchable schema.now words.now j }
    ensures { result ≡ rows_chosen (first_choice schema.now (join_of j) (database_read (codes_in codes.now) schema.now words.now)) }
{
    let at = choose(codes, schema, words, j, 0, 0, [0; 8], heads, nodes)?;
    // Kept as it is: `at.map(..)` was tried, and the proof of what its closure asks at each place did not close.
    let a = join_lookup::position_of(schema, words, at[0]);
    let b = join_lookup::position_of(schema, words, at[1]);
    let c = join_lookup::position_of(schema, words, at[2]);
    let d = join_lookup::position_of(schema, words, at[3]);
    Some([a, b, c, d])
}
