#![tactic(auto)]

ghost use Rattle.std.specs.Prelude.{◌≡◌, cond, ◌+◌, ◌<◌, ◌≤◌, eqb, take, drop, length};
ghost use Rattle.number.specs.Said.{done, no};
ghost use Rattle.complex.specs.Lists.{all};
ghost use Rattle.complex.specs.Sound.{cycles_most, steps_most};
ghost use Rattle.store.specs.View.{width};
ghost use Rattle.sound.specs.Rows.{rows_of, leads_in, joins_in, cycle_good};
ghost use Rattle.lent_cycles.specs.Ring.{Looked, steps_upto, cycles_right, steps_say};

const STEPS_MOST: usize = 2048;

// The kinds of edges in a row.
const OPEN: u32 = 1;

const CLOSED: u32 = 2;

// Whether m halfedges lead from u to w.
fn walk(
    table: &[u8; 1024],
    ids: &[u32; 256],
    kinds: &[u32; 256],
    starts: &[u32; 256],
    ends: &[u32; 256],
    n: usize,
    steps: &[u32; 2048],
    from: usize,
    m: usize,
    u: u32,
    w: u32,
) -> bool
    requires looked { Looked n table.now ids.now kinds.now starts.now ends.now }
    requires steps_len { length steps.now ≡ steps_most }
    requires m_bound { from + m ≤ steps_most }
    ensures { result ≡ leads_in (rows_of n ids.now kinds.now starts.now ends.now) u (take m (drop from steps.now)) w }
{
    let mut at = u;
    for i in 0..m {
        let s = steps[from + i];
        let row = lent_table::row_of(table, ids, n, s / 2);
        if n <= row {
            return false;
        }
        if !rows_halfedge::goes_on(kinds, starts, ends, n, row, at, s) {
            return false;
        }
        at = rows_halfedge::side(ends, starts, n, row, s);
    }
    at == w
}

// Whether m halfedges are all s.
fn repeated(steps: &[u32; 2048], from: usize, m: usize, s: u32) -> bool
    requires steps_len { length steps.now ≡ steps_most }
    requires m_bound { from + m ≤ steps_most }
    ensures { result ≡ all (eqb s) (take m (drop from steps.now)) }
{
    for i in 0..m {
        let t = steps[from + i];
        if s != t {
            return false;
        }
    }
    true
}

// Whether the cycle with the number c, whose places begin at from, is right: a vertex, or halfedges that are joined last to first, or all
// one closed edge in one direction.
fn cycle_good(
    table: &[u8; 1024],
    ids: &[u32; 256],
    kinds: &[u32; 256],
    starts: &[u32; 256],
    ends: &[u32; 256],
    n: usize,
    steps: &[u32; 2048],
    from: usize,
    c: u32,
) -> bool
    requires looked { Looked n table.now ids.now kinds.now starts.now ends.now }
    requires steps_len { length steps.now ≡ steps_most }
    requires c_bound { from + width c ≤ steps_most }
    ensures { result ≡ cycle_good (rows_of n ids.now kinds.now starts.now ends.now) c (drop from steps.now) }
{
    let s = steps[from];
    if c == 0 {
        return lent_table::is_vertex(table, ids, kinds, n, s);
    }
    let row = lent_table::row_of(table, ids, n, s / 2);
    if n <= row {
        return false;
    }
    let k = kinds[row];
    let m = store::wide(c) - 1;
    if k == OPEN {
        let u = rows_halfedge::side(ends, starts, n, row, s);
        let w = rows_halfedge::side(starts, ends, n, row, s);
        return walk(table, ids, kinds, starts, ends, n, steps, from + 1, m, u, w);
    }
    if k == CLOSED {
        return repeated(steps, from + 1, m, s);
    }
    false
}

// The steps up to the last of m cycles from the cycle k on, whose steps begin at from; none at the first cycle
// that passes the ceiling or is not right.
pub fn cycles_good(
    table: &[u8; 1024],
    ids: &[u32; 256],
    kinds: &[u32; 256],
    starts: &[u32; 256],
    ends: &[u32; 256],
    n: usize,
    cycles: &[u32; 512],
    steps: &[u32; 2048],
    k: usize,
    m: usize,
    from: usize,
) -> Option<usize>
    requires looked { Looked n table.now ids.now kinds.now starts.now ends.now }
    requires cycles_len { length cycles.now ≡ cycles_most }
    requires steps_len { length steps.now ≡ steps_most }
    requires m_bound { k + m ≤ cycles_most }
    requires from_value { from ≡ steps_upto cycles.now k }
    requires from_le_steps_most { from ≤ steps_most }
    ensures { steps_say result ≡ cond (cycles_right (rows_of n ids.now kinds.now starts.now ends.now) cycles.now steps.now k m) (done (steps_upto cycles.now (k + m))) (no 1) }
{
    let mut at = from;
    for i in 0..m {
        let c = cycles[k + i];
        let w = store::places(1, c);
        if STEPS_MOST - at < w {
            return None;
        }
        if !cycle_good(table, ids, kinds, starts, ends, n, steps, at, c) {
            return None;
        }
        at = at + w;
    }
    Some(at)
}
