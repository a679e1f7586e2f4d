// Pairs of codes made ready to read by: numbers, cells and stored queries as they are read. Whatever reads an old code as its current one does it here.
#![tactic(auto)]

ghost use Rattle.std.specs.Prelude.{◌≡◌, true, ◌*◌, ◌≤◌, map, length};
ghost use Rattle.query.specs.View.{pair_of, query_of};
ghost use Rattle.query.specs.Rule.{good_query, head_safe};
ghost use Rattle.theory.specs.Codes.{read_code, read_query};
ghost use Rattle.limits.specs.internal.Schema.{widths_in};
ghost use Rattle.codes.specs.internal.Codes.{codes_in, read_cell, read_rows, within_limit};

pub mod pairs; // pairs.rt: the pairs that are ready

use limits::schema::Schema;
use pairs::Codes;
use query::{Cell, CodePair, Entry, NO_CODE_PAIR, Query};

impl Codes {
    // Some pairs, at most 16, made ready.
    pub fn new(pairs: &[CodePair]) -> Codes
        requires { length pairs.now ≤ 16 }
        ensures { codes_in result ≡ map pair_of pairs.now }
    {
        let count = pairs.len();
        let mut firsts = [count as u8; 256];
        for (i, p) in pairs.iter().enumerate() {
            let k = (p.old % 256) as usize;
            firsts[k] = firsts[k].min(i as u8);
        }
        Codes {
            count,
            pairs: chains::padded(pairs, NO_CODE_PAIR),
            firsts,
        }
    }

    // A number as it is read.
    pub fn read(&self, n: u32) -> u32
        ensures { result ≡ read_code (codes_in self.now) n }
    {
        let first = self.firsts[(n % 256) as usize] as usize;
        for p in &self.pairs[first..self.count] {
            if n == p.old {
                return p.current;
            }
        }
        n
    }

    // A cell as it is read.
    pub fn read_cell(&self, cell: Cell) -> Cell
        ensures { result ≡ read_cell (codes_in self.now) cell }
    {
        match cell.entry {
            Entry::Constant(n) => Cell {
                entry: Entry::Constant(self.read(n)),
            },
            Entry::Variable(_) => cell,
        }
    }

    // Each of some cells as it is read.
    fn read_cells(&self, cells: &mut [Cell])
        ensures { cells.new ≡ map (read_cell (codes_in self.now)) cells.old }
    {
        for cell in cells.iter_mut() {
            *cell = self.read_cell(*cell);
        }
    }

    // The rows of the given relations as they are read, row r having the cells from 8 * r on, one a column.
    fn read_rows(&self, schema: Schema, relations: &[u8], cells: &mut [Cell])
        requires { 8 * length relations.now ≤ length cells.old }
        ensures { cells.new ≡ read_rows (codes_in self.now) (widths_in schema) relations.now cells.old }
    {
        for (row, relation) in relations.iter().enumerate() {
            let width = schema.width_of(*relation) as usize;
            self.read_cells(&mut cells[8 * row..8 * row + width]);
        }
    }

    // A stored query as it is read. What is not in use stays.
    pub fn read_query(&self, schema: Schema, q: Query) -> Query
        requires { good_query (widths_in schema) q ≡ true }
        ensures arity { result.arity ≡ q.arity }
        ensures query { query_of (widths_in schema) result ≡ read_query (codes_in self.now) (query_of (widths_in schema) q) }
        ensures good { within_limit self.now → good_query (widths_in schema) result ≡ true }
        ensures safe { head_safe (widths_in schema) q ≡ true → head_safe (widths_in schema) result ≡ true }
    {
        let mut head = q.head;
        let mut cells = q.cells;
        self.read_cells(&mut head[..limits::head_in_use(q.arity, q.size)]);
        self.read_rows(schema, &q.relations[..q.size as usize], &mut cells);
        Query { head, cells, ..q }
    }
}
