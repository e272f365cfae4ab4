#![tactic(auto)]

// Groups of places that links join: each gets a number, by a search along the links.
ghost use Rattle.std.specs.Prelude.{◌≡◌, ◌+◌, ◌≤◌, ◌<◌, length};
ghost use Rattle.rows_groups.specs.Search.{differs as differ, Links, FirstSplit, Reached, LinksReady, Sorting};

// Whether one of two numbers is g and the other not.
fn differs(a: u32, b: u32, g: u32) -> bool
    ensures { result ≡ differ a b g }
{
    if a == g {
        return b != g;
    }
    b == g
}

// The first link of which one place is in group g and the other not; m if there is none.
fn split_link(groups: &[u32], xs: &[u32], ys: &[u32], m: usize, g: u32) -> usize
    requires { Links (length groups.now) xs.now ys.now m }
    ensures { FirstSplit groups.now xs.now ys.now m g result }
{
    for i in 0..m {
        let x = store::wide(xs[i]);
        let y = store::wide(ys[i]);
        if differs(groups[x], groups[y], g) {
            return i;
        }
    }
    m
}

// Group g grows along the links as far as they lead: each call takes in one more place.
fn reach(groups: &mut [u32], xs: &[u32], ys: &[u32], m: usize, g: u32)
    requires { Links (length groups.old) xs.now ys.now m }
    ensures { Reached xs.now ys.now m g groups.old groups.new }
{
    let i = split_link(groups, xs, ys, m, g);
    if i < m {
        let x = store::wide(xs[i]);
        let y = store::wide(ys[i]);
        groups[x] = g;
        groups[y] = g;
        reach(groups, xs, ys, m, g);
    }
}

// The group number of the place p, if it is marked and has none yet: the next one, which all that links lead to gets too.
// The greatest number so far goes in and comes out.
fn start_group(
    groups: &mut [u32],
    at: &[bool],
    xs: &[u32],
    ys: &[u32],
    m: usize,
    p: usize,
    g: u32,
) -> u32
    requires links_ready { LinksReady (length groups.old) at.now xs.now ys.now m }
    requires p_in_bounds { p < length at.now }
    requires sorting { Sorting at.now xs.now ys.now m p g groups.old }
    ensures { Sorting at.now xs.now ys.now m (p + 1) result groups.new }
{
    if !at[p] {
        return g;
    }
    if groups[p] != 0 {
        return g;
    }
    groups[p] = g + 1;
    reach(groups, xs, ys, m, g + 1);
    g + 1
}

// The marked places before n get the numbers of their groups, from 1 on in the order of their first places; how many groups there are.
pub fn find_groups(
    groups: &mut [u32],
    at: &[bool],
    xs: &[u32],
    ys: &[u32],
    m: usize,
    n: usize,
) -> u32
    requires n_in_bounds { n ≤ length at.now }
    requires links_ready { LinksReady (length groups.old) at.now xs.now ys.now m }
    requires sorting { Sorting at.now xs.now ys.now m 0 0 groups.old }
    ensures { Sorting at.now xs.now ys.now m n result groups.new }
{
    let mut g: u32 = 0;
    for p in 0..n {
        g = start_group(groups, at, xs, ys, m, p, g);
    }
    g
}
