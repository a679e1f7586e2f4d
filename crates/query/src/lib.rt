// A stored query, a place for one, a query with room for more rows, stored dependencies of both kinds, and pairs of codes: their types.
#![tactic(auto)]

ghost use Rattle.std.specs.Prelude.{◌≡◌};
ghost use Rattle.query.specs.internal.Never.{never_of};

// An entry of a query: a constant or a variable, each by its number.
#[derive(Clone, Copy, PartialEq, Eq)]
pub enum Entry {
    Constant(u32),
    Variable(u8),
}

// The code of an entry: a constant is its own, variable v has 2,147,483,648 + v.
impl From<Entry> for u32 {
    ghost use Rattle.std.specs.Prelude.{◌≡◌};
    ghost use Rattle.query.specs.internal.Code.{code_of};

    ghost from_gives = { λ entry code. code ≡ code_of entry };

    fn from(entry: Entry) -> u32 {
        match entry {
            Entry::Constant(n) => n,
            Entry::Variable(v) => 2147483648 + u32::from(v),
        }
    }
}

// The entry of a code.
impl From<u32> for Entry {
    ghost use Rattle.std.specs.Prelude.{◌≡◌};
    ghost use Rattle.query.specs.internal.Code.{decoded};

    ghost from_gives = { λ code entry. entry ≡ decoded code };

    fn from(code: u32) -> Entry {
        if code < 2147483648 {
            return Entry::Constant(code);
        }
        let v = (code - 2147483648) % 256;
        Entry::Variable(v as u8)
    }
}

// One entry in an array.
// Kept as it is: a cell of one field that holds an entry is a form of the project's scope.
#[derive(Clone, Copy, PartialEq, Eq)]
pub struct Cell {
    pub entry: Entry,
}

// The cell of an entry that is not in use.
pub const NO_CELL: Cell = Cell {
    entry: Entry::Constant(0),
};

// A query with room for ROWS rows of 8 cells each, CELLS in all: a head of `arity` entries and `size` rows. Row r is of relation relations[r], and its entries
// are cells[8 * r ..], one a column. A query without rows is the never query. What is not in use holds 0, an entry constant 0.
// Kept as it is: flat arrays of cells are a form of the project's scope, and memory is fixed, so `arity` and `size` say how much of each is in use.
#[derive(Clone, Copy)]
pub struct ConjunctiveQuery<const ROWS: usize, const CELLS: usize> {
    pub arity: u8,
    pub size: u8,
    pub head: [Cell; 8],
    pub relations: [u8; ROWS],
    pub cells: [Cell; CELLS],
}

impl<const ROWS: usize, const CELLS: usize> ConjunctiveQuery<ROWS, CELLS> {
    // The never query with a head of `arity` entries.
    pub fn never(arity: u8) -> Self
        ensures { result ≡ never_of ROWS CELLS arity }
    {
        let blank = NO_CELL;
        ConjunctiveQuery {
            arity,
            size: 0,
            head: [blank; 8],
            relations: [0; ROWS],
            cells: [blank; CELLS],
        }
    }
}

// A stored query has room for 12 rows.
pub type Query = ConjunctiveQuery<12, 96>;

// A tableau, as the chase makes them, has room for 24.
pub type Tableau = ConjunctiveQuery<24, 192>;

// A place for a query. A vacant one holds a query of zeros.
// Kept as it is: it is no Option, since refusal 14 judges that a vacant place holds zeros.
#[derive(Clone, Copy)]
pub struct Place {
    pub filled: bool,
    pub query: Query,
}

// A functional dependency: the columns of left (bit c for column c) determine column right of the relation.
#[derive(Clone, Copy, PartialEq, Eq)]
pub struct Dependency {
    pub relation: u8,
    pub left: u8,
    pub right: u8,
}

// The dependency of a slot that is not in use.
pub const NO_DEPENDENCY: Dependency = Dependency {
    relation: 0,
    left: 0,
    right: 0,
};

// A join dependency: the relation is the join of its projections on the first `count` of the sets of columns (bit c for column c).
// Kept as it is: memory is fixed, so there is room for 4 sets, and `count` says how many are in use; that the rest are 0 is judged too.
#[derive(Clone, Copy, PartialEq, Eq)]
pub struct JoinDependency {
    pub relation: u8,
    pub count: u8,
    pub sets: [u8; 4],
}

// The join dependency of a slot that is not in use.
pub const NO_JOIN_DEPENDENCY: JoinDependency = JoinDependency {
    relation: 0,
    count: 0,
    sets: [0; 4],
};

// A code that was renumbered, and the one that it has now.
#[derive(Clone, Copy, PartialEq, Eq)]
pub struct CodePair {
    pub old: u32,
    pub current: u32,
}

// The pair of a slot that is not in use.
pub const NO_CODE_PAIR: CodePair = CodePair { old: 0, current: 0 };
