#![tactic(auto)]

ghost use Rattle.std.specs.Prelude.{◌≡◌, ◌≤◌, take, length, true, false};
ghost use mathlib.Core.List.{[], foldl};
ghost use Rattle.complex.specs.Lists.{cons_if, total};
ghost use Rattle.complex.specs.Uncut.{ends_of_one_edge};
ghost use Rattle.complex.specs.Uses.{lone_use};
ghost use Rattle.store.specs.View.{width_sum, cycles_from};
ghost use Rattle.sound.specs.Rows.{rows_of};
ghost use Rattle.ask_uncut_turns.specs.Turns.{Rowed, Cycled, turns_in};
ghost use Rattle.ask_uncut_ends.specs.Ends.{edge_ends, ends_in, one_end, two_ends};
ghost use Rattle.ask_uncut_ends.specs.Cases.{vertex_says, pair_case, ends_case};

use answer::Question;

// How many edge ends, and the first two: an edge and whether its halfedge leaves backward.
#[derive(Clone, Copy)]
pub struct Ends {
    pub count: usize,
    pub one: u32,
    pub back1: bool,
    pub two: u32,
    pub back2: bool,
}

// A vertex that may be uncut: a lone cycle, both ends of one edge, or the ends of two edges.
#[derive(Clone, Copy)]
pub enum AtVertex {
    Lonely,
    Loop(u32),
    Joint {
        one: u32,
        back1: bool,
        two: u32,
        back2: bool,
    },
}

fn one_end(x: Ends, edge: u32, back: bool) -> Ends
    requires { x.count ≤ 1024 }
    ensures { result ≡ one_end x (record { edge = edge; backward = back }) }
{
    let n = x.count;
    if n == 0 {
        return Ends {
            count: 1,
            one: edge,
            back1: back,
            two: 0,
            back2: false,
        };
    }
    if n == 1 {
        return Ends {
            count: 2,
            one: x.one,
            back1: x.back1,
            two: edge,
            back2: back,
        };
    }
    Ends {
        count: n + 1,
        one: x.one,
        back1: x.back1,
        two: x.two,
        back2: x.back2,
    }
}

fn end_if(yes: bool, x: Ends, edge: u32, back: bool) -> Ends
    requires { x.count ≤ 1024 }
    ensures { result ≡ foldl one_end x (cons_if yes (record { edge = edge; backward = back }) []) }
{
    if yes {
        return one_end(x, edge, back);
    }
    x
}

// The ends at v of an open edge.
fn edge_ends(x: Ends, id: u32, start: u32, end: u32, v: u32) -> Ends
    requires { x.count ≤ 1000 }
    ensures { result ≡ foldl one_end x (edge_ends v id start end) }
{
    let a = end_if(start == v, x, id, false);
    end_if(end == v, a, id, true)
}

// The ends at v of the first n rows: how many, and the first two.
pub fn ends_at(
    ids: &[u32; 256],
    kinds: &[u32; 256],
    starts: &[u32; 256],
    ends: &[u32; 256],
    n: usize,
    v: u32,
) -> Ends
    requires { Rowed n ids.now kinds.now starts.now ends.now }
    ensures { result ≡ two_ends (ends_in v (take n ids.now) (take n kinds.now) (take n starts.now) (take n ends.now)) }
{
    let mut x = Ends {
        count: 0,
        one: 0,
        back1: false,
        two: 0,
        back2: false,
    };
    for i in 0..n {
        if kinds[i] == 1 {
            x = edge_ends(x, ids[i], starts[i], ends[i], v);
        }
    }
    x
}

// Whether two ends are those of one edge.
fn one_edge(a: u32, back1: bool, b: u32, back2: bool) -> bool
    ensures { result ≡ ends_of_one_edge (record { edge = a; backward = back1 }) (record { edge = b; backward = back2 }) }
{
    if a == b {
        return ask_uncut_turns::opposite(back1, back2);
    }
    false
}

// The case of two ends, or question 6.
fn pair_case(
    ids: &[u32; 256],
    kinds: &[u32; 256],
    starts: &[u32; 256],
    ends: &[u32; 256],
    n: usize,
    cycles: &[u32; 512],
    m: usize,
    steps: &[u32; 2048],
    v: u32,
    x: Ends,
) -> Result<AtVertex, Question>
    requires rowed { Rowed n ids.now kinds.now starts.now ends.now }
    requires cycled { Cycled m cycles.now steps.now }
    ensures { vertex_says result ≡ pair_case (turns_in (rows_of n ids.now kinds.now starts.now ends.now) true v (cycles_from (take m cycles.now) steps.now)) (turns_in (rows_of n ids.now kinds.now starts.now ends.now) false v (cycles_from (take m cycles.now) steps.now)) x }
{
    let a = x.one;
    let b = x.two;
    let one = one_edge(a, x.back1, b, x.back2);
    if ask_uncut_turns::turns(ids, kinds, starts, ends, n, one, cycles, m, steps, v) {
        return Err(Question::Rule);
    }
    if one {
        return Ok(AtVertex::Loop(a));
    }
    Ok(AtVertex::Joint {
        one: a,
        back1: x.back1,
        two: b,
        back2: x.back2,
    })
}

// The case of the vertex v, or question 6.
pub fn at_vertex(
    ids: &[u32; 256],
    kinds: &[u32; 256],
    starts: &[u32; 256],
    ends: &[u32; 256],
    n: usize,
    cycles: &[u32; 512],
    m: usize,
    steps: &[u32; 2048],
    v: u32,
) -> Result<AtVertex, Question>
    requires rowed { Rowed n ids.now kinds.now starts.now ends.now }
    requires cycles_len { length cycles.now ≡ 512 }
    requires steps_len { length steps.now ≡ 2048 }
    requires m_bound { m ≤ 512 }
    requires cycles_bound { width_sum (take m cycles.now) ≤ 2048 }
    ensures { vertex_says result ≡ ends_case (turns_in (rows_of n ids.now kinds.now starts.now ends.now) true v (cycles_from (take m cycles.now) steps.now)) (turns_in (rows_of n ids.now kinds.now starts.now ends.now) false v (cycles_from (take m cycles.now) steps.now)) (total (lone_use v) (cycles_from (take m cycles.now) steps.now)) (two_ends (ends_in v (take n ids.now) (take n kinds.now) (take n starts.now) (take n ends.now))) }
{
    let x = ends_at(ids, kinds, starts, ends, n, v);
    let lones = rows_uses::count_lone(cycles, m, steps, v);
    match (x.count, lones) {
        (0, 1) => Ok(AtVertex::Lonely),
        (2, 0) => pair_case(ids, kinds, starts, ends, n, cycles, m, steps, v, x),
        _ => Err(Question::Rule),
    }
}
