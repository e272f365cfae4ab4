#![tactic(auto)]

ghost use Rattle.std.specs.Prelude.{◌≡◌, ◌+◌, ◌≤◌, take, drop, length, not, map};
ghost use Rattle.std.specs.Bool.{beq};
ghost use Rattle.complex.specs.Lists.{any};
ghost use Rattle.complex.specs.Cells.{steps_of};
ghost use Rattle.complex.specs.Uses.{passage, passages};
ghost use Rattle.store.specs.View.{halfedge_of, width, cycle_of, cycles_from};
ghost use Rattle.sound.specs.Rows.{rows_of};
ghost use Rattle.ask_uncut_turns.specs.Turns.{Rowed, Cycled, leaves_in, turns_back, turns_at, turns_in};

// Whether one of two directions is backward and the other not.
pub fn opposite(p: bool, q: bool) -> bool
    ensures { result ≡ beq (not p) q }
{
    if p {
        return !q;
    }
    q
}

// Whether the halfedge s is of an open edge and begins at v.
fn leaves(
    ids: &[u32; 256],
    kinds: &[u32; 256],
    starts: &[u32; 256],
    ends: &[u32; 256],
    n: usize,
    s: u32,
    v: u32,
) -> bool
    requires { Rowed n ids.now kinds.now starts.now ends.now }
    ensures { result ≡ leaves_in (rows_of n ids.now kinds.now starts.now ends.now) v (halfedge_of s) }
{
    let row = store::find(ids, n, s / 2);
    if row < n {
        return rows_halfedge::goes_on(kinds, starts, ends, n, row, v, s);
    }
    false
}

// Whether a passage from the step h on to the step k leaves by the end, or if not whole by the edge, that it arrives by.
fn turns_back(whole: bool, h: u32, k: u32) -> bool
    ensures { result ≡ turns_back whole (passage (halfedge_of h) (halfedge_of k)) }
{
    let a = h / 2;
    let b = k / 2;
    if a == b {
        if whole {
            let x = h % 2;
            let y = k % 2;
            return x != y;
        }
        return true;
    }
    false
}

fn turns_at(
    ids: &[u32; 256],
    kinds: &[u32; 256],
    starts: &[u32; 256],
    ends: &[u32; 256],
    n: usize,
    whole: bool,
    h: u32,
    k: u32,
    v: u32,
) -> bool
    requires { Rowed n ids.now kinds.now starts.now ends.now }
    ensures { result ≡ turns_at (rows_of n ids.now kinds.now starts.now ends.now) whole v (passage (halfedge_of h) (halfedge_of k)) }
{
    if turns_back(whole, h, k) {
        return leaves(ids, kinds, starts, ends, n, k, v);
    }
    false
}

// Whether a path of m steps turns back at v.
fn path_turns(
    ids: &[u32; 256],
    kinds: &[u32; 256],
    starts: &[u32; 256],
    ends: &[u32; 256],
    n: usize,
    whole: bool,
    steps: &[u32; 2048],
    from: usize,
    m: usize,
    v: u32,
) -> bool
    requires rowed { Rowed n ids.now kinds.now starts.now ends.now }
    requires steps_len { length steps.now ≡ 2048 }
    requires le_m { 1 ≤ m }
    requires m_bound { from + m ≤ 2048 }
    ensures { result ≡ any (turns_at (rows_of n ids.now kinds.now starts.now ends.now) whole v) (passages (map halfedge_of (take m (drop from steps.now)))) }
{
    let first = steps[from];
    let mut h = first;
    for i in 1..m {
        let k = steps[from + i];
        if turns_at(ids, kinds, starts, ends, n, whole, h, k, v) {
            return true;
        }
        h = k;
    }
    turns_at(ids, kinds, starts, ends, n, whole, h, first, v)
}

// Whether the cycle with the number c, whose places begin at from, turns back at v.
fn cycle_turns(
    ids: &[u32; 256],
    kinds: &[u32; 256],
    starts: &[u32; 256],
    ends: &[u32; 256],
    n: usize,
    whole: bool,
    steps: &[u32; 2048],
    from: usize,
    c: u32,
    v: u32,
) -> bool
    requires rowed { Rowed n ids.now kinds.now starts.now ends.now }
    requires steps_len { length steps.now ≡ 2048 }
    requires c_bound { from + width c ≤ 2048 }
    ensures { result ≡ any (turns_at (rows_of n ids.now kinds.now starts.now ends.now) whole v) (passages (steps_of (cycle_of c (drop from steps.now)))) }
{
    if c == 0 {
        return false;
    }
    path_turns(
        ids,
        kinds,
        starts,
        ends,
        n,
        whole,
        steps,
        from,
        store::wide(c),
        v,
    )
}

// Whether one of the first m cycles passes v and leaves by the end, or if not whole by the edge, that it arrives by.
pub fn turns(
    ids: &[u32; 256],
    kinds: &[u32; 256],
    starts: &[u32; 256],
    ends: &[u32; 256],
    n: usize,
    whole: bool,
    cycles: &[u32; 512],
    m: usize,
    steps: &[u32; 2048],
    v: u32,
) -> bool
    requires rowed { Rowed n ids.now kinds.now starts.now ends.now }
    requires cycled { Cycled m cycles.now steps.now }
    ensures { result ≡ turns_in (rows_of n ids.now kinds.now starts.now ends.now) whole v (cycles_from (take m cycles.now) steps.now) }
{
    let mut from: usize = 0;
    for i in 0..m {
        let c = cycles[i];
        if cycle_turns(ids, kinds, starts, ends, n, whole, steps, from, c, v) {
            return true;
        }
        from = from + store::places(1, c);
    }
    false
}
