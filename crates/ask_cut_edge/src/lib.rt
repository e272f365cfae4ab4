#![tactic(auto)]

ghost use Rattle.std.specs.Prelude.{◌≡◌, ◌+◌, ◌<◌, ◌≤◌, ◌/◌, ◌%◌};
ghost use Rattle.ask_cut_edge.specs.Cuts.{next_bend, closed_between, point_place, point_of, open_between};

use coordinate::Position;

// The place of the bend after bend i of a closed edge, round its end.
pub fn next_bend(base: usize, m: usize, i: usize) -> usize
    requires m_bound { base + m ≤ 2048 }
    requires i_lt_m { i < m }
    ensures { result ≡ next_bend base m i }
{
    if i + 1 == m {
        return base;
    }
    base + i + 1
}

// Where place q of a closed edge lies: at the bend p, or between p and the bend o after it.
pub fn closed_place(p: Position, o: Position, q: usize) -> Position
    ensures { result ≡ closed_between p o q }
{
    if q % 2 == 1 {
        return p;
    }
    coordinate::midpoint(p, o)
}

// The place of the bend that is the k-th point of an open edge, whose m bends stand from base on; 0 for an end.
pub fn point_place(base: usize, m: usize, k: usize) -> usize
    requires { base + m ≤ 2048 }
    ensures { result ≡ point_place base m k }
{
    if k == 0 {
        return 0;
    }
    if m < k {
        return 0;
    }
    base + (k - 1)
}

// The k-th point that an open edge passes: its start a, a bend p, its end b.
fn open_point(a: Position, b: Position, p: Position, m: usize, k: usize) -> Position
    ensures { result ≡ point_of a b p m k }
{
    if k == 0 {
        return a;
    }
    if m < k {
        return b;
    }
    p
}

// Where place q of an open edge from a to b lies: o and p are the bends before and after the place, where these are.
pub fn open_place(
    a: Position,
    b: Position,
    o: Position,
    p: Position,
    m: usize,
    q: usize,
) -> Position
    ensures { result ≡ open_between a b o p m q }
{
    let i = q / 2;
    if q % 2 == 1 {
        return p;
    }
    let s = open_point(a, b, o, m, i);
    let f = open_point(a, b, p, m, i + 1);
    coordinate::midpoint(s, f)
}
