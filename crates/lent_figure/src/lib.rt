#![tactic(auto)]

// The tests of one row on its own: its id, its normal form, what its kind asks.
ghost use Rattle.std.specs.Prelude.{◌≡◌, ◌<◌};
ghost use Rattle.complex.specs.Sound.{cells_most};
ghost use Rattle.complex.specs.Visits.{id_right};
ghost use Rattle.sound.specs.Rows.{rows_of};
ghost use Rattle.lent.specs.Arrays.{row_normal};
ghost use Rattle.lent_cycles.specs.Ring.{Looked};
ghost use Rattle.lent_figure.specs.Figure.{FigureRight};

use coordinate::Position;

// The kinds in a row.
const VERTEX: u32 = 0;

const OPEN: u32 = 1;

const CLOSED: u32 = 2;

const FACE: u32 = 3;

// Whether the id in row i is above the one before it, and below the next id.
pub fn id_right(next: u32, ids: &[u32; 256], i: usize) -> bool
    requires { i < cells_most }
    ensures { result ≡ id_right next ids.now i }
{
    let x = ids[i];
    if next <= x {
        return false;
    }
    if i == 0 {
        return 0 < x;
    }
    ids[i - 1] < x
}

// Whether a row has 0 in each number that its kind does not use.
pub fn row_normal(k: u32, s: u32, e: u32, b: u32, c: u32) -> bool
    ensures { result ≡ row_normal k s e b c }
{
    if k == OPEN {
        return c == 0;
    }
    if s != 0 {
        return false;
    }
    if e != 0 {
        return false;
    }
    if k == CLOSED {
        return c == 0;
    }
    if b != 0 {
        return false;
    }
    if k == FACE {
        return true;
    }
    if k == VERTEX {
        return c == 0;
    }
    false
}

// Whether a vertex lies in bounds, an open edge's ends are vertices, a closed edge has a bend: of the cell in row i, with b bends.
pub fn figure_right(
    table: &[u8; 1024],
    ids: &[u32; 256],
    kinds: &[u32; 256],
    starts: &[u32; 256],
    ends: &[u32; 256],
    n: usize,
    i: usize,
    b: u32,
    p: Position,
) -> bool
    requires looked { Looked n table.now ids.now kinds.now starts.now ends.now }
    requires i_lt_n { i < n }
    ensures { FigureRight (rows_of n ids.now kinds.now starts.now ends.now) n i b p result }
{
    let k = kinds[i];
    if k == OPEN {
        if lent_table::is_vertex(table, ids, kinds, n, starts[i]) {
            return lent_table::is_vertex(table, ids, kinds, n, ends[i]);
        }
        return false;
    }
    if k == CLOSED {
        return b != 0;
    }
    if k == VERTEX {
        return coordinate::in_bounds(p);
    }
    true
}
