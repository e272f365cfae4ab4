#![tactic(auto)]

// The pieces of a drawing as ways up: each row leads to itself or to a row before it, and the rows of a piece to the lowest of them.
ghost use Rattle.std.specs.Prelude.{◌≡◌, ◌+◌, ◌≤◌, ◌<◌, length};
ghost use Rattle.complex.specs.Sound.{cells_most};
ghost use Rattle.rows_pieces.specs.Ways.{Leads, Owns, Topped, Joins};

// What `pieces` answers: its number, and how many pieces there are.
#[derive(Clone, Copy)]
pub struct PieceCount {
    pub number: u32,
    pub count: u32,
}

// Each of n rows is a piece by itself.
pub fn part(up: &mut [u8; 256], n: usize)
    requires n_le_cells_most { n ≤ cells_most }
    requires up_len { length up.old ≡ cells_most }
    ensures { Owns n up.new }
{
    for i in 0..n {
        up[i] = i as u8;
    }
}

// The top of a row: the lowest row of its piece. Every row on the way leads over the next one then.
fn top(up: &mut [u8; 256], row: usize) -> usize
    requires up_len { length up.old ≡ cells_most }
    requires row_lt_cells_most { row < cells_most }
    requires leads { Leads (row + 1) up.old }
    ensures { Topped row up.old result up.new }
{
    let mut r = row;
    let mut a = rows_halfedge::row_in(up[r]);
    // A walk up, not a count: how many rows lead to the top is not known.
    while a < r {
        let b = up[a];
        up[r] = b;
        r = rows_halfedge::row_in(b);
        a = rows_halfedge::row_in(up[r]);
    }
    r
}

// Joins the pieces of two rows: the higher top leads to the lower. How many pieces fewer there are.
pub fn join(up: &mut [u8; 256], x: usize, y: usize) -> u32
    requires up_len { length up.old ≡ cells_most }
    requires x_lt_cells_most { (x < cells_most) × (y < cells_most) }
    requires leads { Leads (x + 1) up.old × Leads (y + 1) up.old }
    ensures { Joins x y up.old result up.new }
{
    let a = top(up, x);
    let b = top(up, y);
    if a < b {
        up[b] = a as u8;
        return 1;
    }
    if b < a {
        up[a] = b as u8;
        return 1;
    }
    0
}
