#![tactic(auto)]

ghost use Rattle.std.specs.Prelude.{◌≡◌, ◌≤◌, take, length, map};
ghost use Rattle.complex.specs.Lists.{total};
ghost use Rattle.store.specs.View.{halfedge_of, width, width_sum, cycle_of, cycles_from};
ghost use Rattle.rows_sides.specs.Sides.{side_use, forward_use, backward_use, forward_in, backward_in};

// How many steps of an edge there are in each direction.
#[derive(Clone, Copy)]
pub struct Sides {
    pub forward: usize,
    pub backward: usize,
}

// What a step s counts for edge e: back if it is backward, forth if not, and nothing if it is of another edge.
fn side_use(e: u32, s: u32, back: usize, forth: usize) -> usize
    ensures { result ≡ side_use back forth e (halfedge_of s) }
{
    if e != s / 2 {
        return 0;
    }
    if s % 2 == 1 {
        return back;
    }
    forth
}

// The steps of edge e among the first n.
fn run_sides(l: &[u32], n: usize, e: u32) -> Sides
    requires { n ≤ length l.now }
    ensures forward_value { result.forward ≡ total (forward_use e) (map halfedge_of (take n l.now)) }
    ensures backward_value { result.backward ≡ total (backward_use e) (map halfedge_of (take n l.now)) }
{
    let mut forward: usize = 0;
    let mut backward: usize = 0;
    for j in 0..n {
        let s = l[j];
        forward = forward + side_use(e, s, 0, 1);
        backward = backward + side_use(e, s, 1, 0);
    }
    Sides { forward, backward }
}

// The steps of edge e in the cycle of number c at the front of l.
pub fn path_sides(c: u32, l: &[u32], e: u32) -> Sides
    requires { width c ≤ length l.now }
    ensures forward_value { result.forward ≡ forward_in e (cycle_of c l.now) }
    ensures backward_value { result.backward ≡ backward_in e (cycle_of c l.now) }
{
    if c == 0 {
        return Sides {
            forward: 0,
            backward: 0,
        };
    }
    run_sides(l, store::wide(c), e)
}

// The steps of edge e in the first n cycles.
pub fn count_sides(cycles: &[u32], n: usize, steps: &[u32], e: u32) -> Sides
    requires n_in_bounds { n ≤ length cycles.now }
    requires cycles_in_bounds { width_sum (take n cycles.now) ≤ length steps.now }
    ensures forward_value { result.forward ≡ total (forward_in e) (cycles_from (take n cycles.now) steps.now) }
    ensures backward_value { result.backward ≡ total (backward_in e) (cycles_from (take n cycles.now) steps.now) }
{
    let mut forward: usize = 0;
    let mut backward: usize = 0;
    let mut from: usize = 0;
    for j in 0..n {
        let c = cycles[j];
        let x = path_sides(c, &steps[from..], e);
        forward = forward + x.forward;
        backward = backward + x.backward;
        from = from + store::places(1, c);
    }
    Sides { forward, backward }
}
