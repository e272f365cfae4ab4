#![tactic(auto)]

ghost use Rattle.std.specs.Prelude.{◌≡◌, ◌+◌, ◌<◌, ◌≤◌};
ghost use Rattle.complex.specs.Lists.{one};
ghost use Rattle.rows_stretches.specs.Paths.{all_but, between};

use rows_spans::Spans;

// Steps one after another: len of the count steps of the cycle at a place, from one of them on and round the end.
#[derive(Clone, Copy)]
pub struct Stretch {
    pub at: usize,
    pub count: usize,
    pub from: usize,
    pub len: usize,
}

// One cycle of a face: where the face's cycles stand, which of them it is, how many steps it has and where they begin.
#[derive(Clone, Copy)]
pub struct Place {
    pub spans: Spans,
    pub cycle: usize,
    pub count: usize,
    pub at: usize,
}

// What follows the step s of a cycle, round to before it.
pub fn following(p: Place, s: usize) -> Stretch
    requires { s < p.count }
    ensures { result ≡ all_but p s }
{
    Stretch {
        at: p.at,
        count: p.count,
        from: s + 1,
        len: p.count - 1,
    }
}

// What follows the step s of a cycle, up to its step t.
pub fn up_to(p: Place, s: usize, t: usize) -> Stretch
    requires count_bound { p.count ≤ 2048 }
    requires s_lt_count { s < p.count }
    requires t_lt_count { t < p.count }
    ensures { result ≡ between p s t }
{
    let from = s + 1;
    let n = p.count;
    Stretch {
        at: p.at,
        count: n,
        from: from,
        len: rows_corners::between(n, from, t),
    }
}
