#![tactic(auto)]

// The ends of open edges at a vertex: their marks, and the copies of the vertex that they get.
ghost use Rattle.std.specs.Prelude.{◌≡◌, ◌+◌, ◌*◌, ◌≤◌, ◌<◌, false, length};
ghost use Rattle.complex.specs.Sound.{ids_end};
ghost use Rattle.rows_ends.specs.Ends.{end_mark, EndMarks, end_after, EndRows, NewEnds};

fn is_end(k: u32, a: u32, v: u32) -> bool
    ensures { result ≡ end_mark k a v }
{
    if k != 1 {
        return false;
    }
    a == v
}

// The places of the ends at v, from the kinds, starts and ends of n rows.
pub fn mark_ends(kinds: &[u32], starts: &[u32], ends: &[u32], n: usize, v: u32, at: &mut [bool])
    requires n_in_bounds { n ≤ length kinds.now }
    requires n_in_bounds_2 { n ≤ length starts.now }
    requires n_in_bounds_3 { n ≤ length ends.now }
    requires n_in_bounds_4 { n * 2 ≤ length at.old }
    requires end_marks { EndMarks kinds.now starts.now ends.now v 0 at.old }
    ensures { EndMarks kinds.now starts.now ends.now v n at.new }
{
    for j in 0..n {
        let k = kinds[j];
        at[j * 2] = is_end(k, starts[j], v);
        at[j * 2 + 1] = is_end(k, ends[j], v);
    }
}

fn new_end(mark: bool, g: u32, a: u32, v: u32, next: u32) -> u32
    requires g_bound { g ≤ 512 }
    requires next_le_ids_end { next ≤ ids_end }
    ensures { result ≡ end_after mark g a v next }
{
    if !mark {
        return a;
    }
    if g < 2 {
        return v;
    }
    next + (g - 2)
}

// The ends at v in n rows become the copies of v that their groups say; on one side of the edges.
pub fn new_ends(
    side: usize,
    at: &[bool],
    groups: &[u32],
    n: usize,
    v: u32,
    next: u32,
    ends: &mut [u32],
)
    requires { EndRows side at.now groups.now n next ends.old }
    ensures { NewEnds side at.now groups.now v next n ends.old ends.new }
{
    for j in 0..n {
        let p = j * 2 + side;
        ends[j] = new_end(at[p], groups[p], ends[j], v, next);
    }
}
