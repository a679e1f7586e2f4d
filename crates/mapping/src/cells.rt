// A query or a tableau in one line: the cells of its rows, then those of its head. Rows and head are 8 wide, blanks included.
ghost use Rattle.std.specs.Prelude.{◌≡◌, ℕ, ◌+◌, ◌<◌, get_or};
ghost use Rattle.query.specs.Rule.{no_cell};
ghost use Rattle.mapping.specs.internal.Lines.{line_at};

use query::Cell;

// The cells of rows, then those of a head, in one line.
pub fn flat<const CELLS: usize, const LINE: usize>(
    cells: &[Cell; CELLS],
    head: &[Cell; 8],
) -> [Cell; LINE]
    requires { LINE ≡ CELLS + 8 }
    ensures { (k : ℕ) → k < LINE → get_or result k no_cell ≡ line_at CELLS cells.now head.now k }
{
    let mut line = [query::NO_CELL; LINE];
    let (rows, end) = line.split_at_mut(CELLS);
    rows.copy_from_slice(cells);
    end.copy_from_slice(head);
    line
}
