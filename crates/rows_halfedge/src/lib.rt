#![tactic(auto)]

// What a row says of a halfedge: where it begins, and whether a walk goes on with it.
ghost use Rattle.std.specs.Prelude.{◌≡◌, ◌<◌, ◌≤◌, take, length};
ghost use Rattle.complex.specs.Sound.{cells_most};
ghost use Rattle.sound.specs.Rows.{side_at, goes_on_at};

// The kinds of edges in a row.
const OPEN: u32 = 1;

// A row that is kept as a byte.
pub fn row_in(x: u8) -> usize
    ensures { result ≡ x }
{
    x as usize
}

// Where the halfedge s of the edge in a row begins; with starts and ends exchanged, where it ends.
pub fn side(starts: &[u32; 256], ends: &[u32; 256], n: usize, row: usize, s: u32) -> u32
    requires n_le_cells_most { n ≤ cells_most }
    requires starts_len { length starts.now ≡ cells_most }
    requires ends_len { length ends.now ≡ cells_most }
    requires row_lt_n { row < n }
    ensures { result ≡ side_at (take n starts.now) (take n ends.now) row s }
{
    if s % 2 == 1 {
        return ends[row];
    }
    starts[row]
}

// Whether the halfedge s, whose edge is in a row, is of an open edge and begins at u.
pub fn goes_on(
    kinds: &[u32; 256],
    starts: &[u32; 256],
    ends: &[u32; 256],
    n: usize,
    row: usize,
    u: u32,
    s: u32,
) -> bool
    requires n_le_cells_most { n ≤ cells_most }
    requires kinds_len { length kinds.now ≡ cells_most }
    requires starts_len { length starts.now ≡ cells_most }
    requires ends_len { length ends.now ≡ cells_most }
    requires row_lt_n { row < n }
    ensures { result ≡ goes_on_at (take n kinds.now) (take n starts.now) (take n ends.now) row u s }
{
    let k = kinds[row];
    if k == OPEN {
        let t = side(starts, ends, n, row, s);
        return u == t;
    }
    false
}
