#![tactic(auto)]

ghost use Rattle.std.specs.Prelude.{◌≡◌, ◌+◌, ◌<◌, ◌≤◌, take, length};
ghost use Rattle.complex.specs.Lists.{total};
ghost use Rattle.complex.specs.Uses.{step_use, ring_use, lone_use};
ghost use Rattle.store.specs.View.{width, width_sum, cycle_of, cycles_from};
ghost use Rattle.rows_uses.specs.Uses.{uses_in};

// What is copied with a use: a step of an open edge, a cycle of a closed edge, a lone cycle of a vertex.
#[derive(Clone, Copy)]
pub enum Use {
    Step,
    Ring,
    Lone,
}

// How many steps of edge i the cycle of number c at the front of l has.
fn path_uses(c: u32, l: &[u32], i: u32) -> usize
    requires { width c ≤ length l.now }
    ensures { result ≡ step_use i (cycle_of c l.now) }
{
    let x = rows_sides::path_sides(c, l, i);
    x.forward + x.backward
}

fn ring_uses(c: u32, l: &[u32], i: u32) -> usize
    requires { width c ≤ length l.now }
    ensures { result ≡ ring_use i (cycle_of c l.now) }
{
    let n = path_uses(c, l, i);
    if n == 0 {
        return 0;
    }
    1
}

fn lone_uses(c: u32, l: &[u32], i: u32) -> usize
    requires { width c ≤ length l.now }
    ensures { result ≡ lone_use i (cycle_of c l.now) }
{
    if c != 0 {
        return 0;
    }
    if i == l[0] {
        return 1;
    }
    0
}

// How often the cycle of number c at the front of l uses the cell i.
pub fn cycle_uses(u: Use, c: u32, l: &[u32], i: u32) -> usize
    requires { width c ≤ length l.now }
    ensures { result ≡ uses_in u i (cycle_of c l.now) }
{
    match u {
        Use::Step => path_uses(c, l, i),
        Use::Ring => ring_uses(c, l, i),
        Use::Lone => lone_uses(c, l, i),
    }
}

// How often the first n cycles use the cell i.
pub fn count_uses(u: Use, cycles: &[u32], n: usize, steps: &[u32], i: u32) -> usize
    requires n_in_bounds { n ≤ length cycles.now }
    requires cycles_in_bounds { width_sum (take n cycles.now) ≤ length steps.now }
    ensures { result ≡ total (uses_in u i) (cycles_from (take n cycles.now) steps.now) }
{
    let mut sum: usize = 0;
    let mut from: usize = 0;
    for j in 0..n {
        let c = cycles[j];
        sum = sum + cycle_uses(u, c, &steps[from..], i);
        from = from + store::places(1, c);
    }
    sum
}

pub fn count_steps(cycles: &[u32], n: usize, steps: &[u32], e: u32) -> usize
    requires n_in_bounds { n ≤ length cycles.now }
    requires cycles_in_bounds { width_sum (take n cycles.now) ≤ length steps.now }
    ensures { result ≡ total (step_use e) (cycles_from (take n cycles.now) steps.now) }
{
    let x = rows_sides::count_sides(cycles, n, steps, e);
    x.forward + x.backward
}

pub fn count_lone(cycles: &[u32], n: usize, steps: &[u32], v: u32) -> usize
    requires n_in_bounds { n ≤ length cycles.now }
    requires cycles_in_bounds { width_sum (take n cycles.now) ≤ length steps.now }
    ensures { result ≡ total (lone_use v) (cycles_from (take n cycles.now) steps.now) }
{
    count_uses(Use::Lone, cycles, n, steps, v)
}
