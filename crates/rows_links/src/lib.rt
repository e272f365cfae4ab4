#![tactic(auto)]

// Links between the places of edge ends: a link for each passage of a cycle from one step on to the next.
ghost use Rattle.std.specs.Prelude.{◌≡◌, ◌+◌, ◌*◌, ◌≤◌, ◌<◌, false, map, length, take, get_or};
ghost use Rattle.complex.specs.Lists.{one};
ghost use Rattle.complex.specs.Cells.{steps_of};
ghost use Rattle.complex.specs.Uses.{passage, passages};
ghost use Rattle.store.specs.View.{halfedge_of, width, width_sum, cycle_of, cycles_from};
ghost use Rattle.store.specs.Index.{row_of};
ghost use Rattle.rows_links.specs.Links.{IdRows, turns_of, Paired, LinksPut, next_step};

// The place of an end of edge e.
fn place(ids: &[u32; 256], n: usize, e: u32, side: u32) -> u32
    requires id_rows { IdRows ids.now n }
    requires side_bound { side ≤ 1 }
    ensures { result ≡ row_of e (take n ids.now) * 2 + side }
{
    let row = store::find(ids, n, e);
    (row as u32) * 2 + side
}

fn is_marked(at: &[bool], p: u32) -> bool
    ensures { result ≡ get_or at.now p false }
{
    let i = store::wide(p);
    if i < at.len() {
        return at[i];
    }
    false
}

fn put_pair(keep: bool, x: u32, y: u32, xs: &mut [u32], ys: &mut [u32], used: usize) -> usize
    requires used_in_bounds { used < length xs.old }
    requires used_in_bounds_2 { used < length ys.old }
    ensures { Paired keep x y used xs.old ys.old result xs.new ys.new }
{
    if !keep {
        return used;
    }
    xs[used] = x;
    ys[used] = y;
    used + 1
}

// The passage from step h on to step k as a link, if both its places are marked.
fn put_link(
    ids: &[u32; 256],
    n: usize,
    at: &[bool],
    h: u32,
    k: u32,
    xs: &mut [u32],
    ys: &mut [u32],
    used: usize,
) -> usize
    requires id_rows { IdRows ids.now n }
    requires used_in_bounds { used < length xs.old }
    requires used_in_bounds_2 { used < length ys.old }
    ensures { LinksPut (take n ids.now) at.now (one (passage (halfedge_of h) (halfedge_of k))) used xs.old ys.old result xs.new ys.new }
{
    let x = place(ids, n, h / 2, 1 - h % 2);
    if !is_marked(at, x) {
        return used;
    }
    let y = place(ids, n, k / 2, k % 2);
    let keep = is_marked(at, y);
    put_pair(keep, x, y, xs, ys, used)
}

fn next_step(l: &[u32], c: usize, j: usize) -> u32
    requires j_lt_c { j < c }
    requires c_in_bounds { c ≤ length l.now }
    ensures { result ≡ next_step l.now c j }
{
    if j + 1 < c {
        return l[j + 1];
    }
    l[0]
}

// The links of the passages of a cycle of c steps.
fn path_links(
    ids: &[u32; 256],
    n: usize,
    at: &[bool],
    l: &[u32],
    c: usize,
    xs: &mut [u32],
    ys: &mut [u32],
    used: usize,
) -> usize
    requires id_rows { IdRows ids.now n }
    requires c_in_bounds { c ≤ length l.now }
    requires c_in_bounds_2 { used + c ≤ length xs.old }
    requires c_in_bounds_3 { used + c ≤ length ys.old }
    ensures { LinksPut (take n ids.now) at.now (passages (map halfedge_of (take c l.now))) used xs.old ys.old result xs.new ys.new }
{
    let mut k = used;
    for j in 0..c {
        let g = next_step(l, c, j);
        k = put_link(ids, n, at, l[j], g, xs, ys, k);
    }
    k
}

fn cycle_links(
    ids: &[u32; 256],
    n: usize,
    at: &[bool],
    c: u32,
    l: &[u32],
    xs: &mut [u32],
    ys: &mut [u32],
    used: usize,
) -> usize
    requires id_rows { IdRows ids.now n }
    requires c_in_bounds { width c ≤ length l.now }
    requires c_in_bounds_2 { used + width c ≤ length xs.old }
    requires c_in_bounds_3 { used + width c ≤ length ys.old }
    ensures { LinksPut (take n ids.now) at.now (passages (steps_of (cycle_of c l.now))) used xs.old ys.old result xs.new ys.new }
{
    if c == 0 {
        return used;
    }
    path_links(ids, n, at, l, store::wide(c), xs, ys, used)
}

// The links of the passages of the first m cycles.
pub fn find_links(
    ids: &[u32; 256],
    n: usize,
    at: &[bool],
    cycles: &[u32],
    m: usize,
    steps: &[u32],
    xs: &mut [u32],
    ys: &mut [u32],
) -> usize
    requires id_rows { IdRows ids.now n }
    requires m_in_bounds { m ≤ length cycles.now }
    requires cycles_in_bounds { width_sum (take m cycles.now) ≤ length steps.now }
    requires cycles_in_bounds_2 { width_sum (take m cycles.now) ≤ length xs.old }
    requires cycles_in_bounds_3 { width_sum (take m cycles.now) ≤ length ys.old }
    ensures { LinksPut (take n ids.now) at.now (turns_of (cycles_from (take m cycles.now) steps.now)) 0 xs.old ys.old result xs.new ys.new }
{
    let mut k: usize = 0;
    let mut from: usize = 0;
    for j in 0..m {
        let c = cycles[j];
        k = cycle_links(ids, n, at, c, &steps[from..], xs, ys, k);
        from = from + store::places(1, c);
    }
    k
}
