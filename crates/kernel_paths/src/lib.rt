#![tactic(auto)]

ghost use Rattle.std.specs.Prelude.{◌≡◌, ◌++◌, length};
ghost use Rattle.complex.specs.Lists.{one};
ghost use Rattle.rows_spans.specs.Building.{Built, built, RoomFor};
ghost use Rattle.rows_stretches.specs.Paths.{path_of, PathRoom, others_at, put_at, Besides, merged_list, Merging, parted_list, Parting, ringed_list, Ringing};
ghost use Rattle.kernel_paths.specs.Runs.{path_run, RunRoom, Inside, sides_of, Puts};

use rows_spans::Used;
use rows_stretches::{Place, Stretch};

// Cycles of a face one after another: where they begin and how many there are, and the same of their steps.
#[derive(Clone, Copy)]
struct Run {
    first: usize,
    count: usize,
    from: usize,
    len: usize,
}

// The cycles of a face before one of them, and those after it.
#[derive(Clone, Copy)]
struct Sides {
    ahead: Run,
    behind: Run,
}

// The cycles about p.
fn about(p: Place) -> Sides
    requires { Inside p }
    ensures { result ≡ sides_of p }
{
    let next = p.cycle + 1;
    let end = p.at + p.count;
    let a = Run {
        first: p.spans.cycles.first,
        count: p.cycle,
        from: p.spans.steps.first,
        len: p.at - p.spans.steps.first,
    };
    let b = Run {
        first: p.spans.cycles.first + next,
        count: p.spans.cycles.count - next,
        from: end,
        len: p.spans.steps.first + p.spans.steps.count - end,
    };
    Sides {
        ahead: a,
        behind: b,
    }
}

// A list with the cycles of a run more.
fn copy_cycles(
    cycles: &[u32; 512],
    steps: &[u32; 2048],
    r: Run,
    numbers: &mut [u32],
    places: &mut [u32],
    u: Used,
) -> Used
    requires { RunRoom cycles.now steps.now r numbers.old u places.old }
    ensures { Built (built numbers.old u places.old ++ path_run cycles.now steps.now r) numbers.new result places.new }
{
    let c = rows_spans::copy_run(cycles, r.first, r.count, numbers, u.cycles);
    let s = rows_spans::copy_run(steps, r.from, r.len, places, u.steps);
    Used {
        cycles: c,
        steps: s,
    }
}

// A list with the cycles of a face more, but one.
fn copy_others(
    cycles: &[u32; 512],
    steps: &[u32; 2048],
    p: Place,
    numbers: &mut [u32],
    places: &mut [u32],
    u: Used,
) -> Used
    requires { Besides cycles.now steps.now p numbers.old u places.old }
    ensures { Built (built numbers.old u places.old ++ others_at cycles.now steps.now p) numbers.new result places.new }
{
    let t = about(p);
    let w = copy_cycles(cycles, steps, t.ahead, numbers, places, u);
    copy_cycles(cycles, steps, t.behind, numbers, places, w)
}

// A list with a cycle more: one stretch and then another, or if both are empty the vertex v alone.
fn push_path(
    steps: &[u32; 2048],
    a: Stretch,
    b: Stretch,
    v: u32,
    numbers: &mut [u32],
    places: &mut [u32],
    u: Used,
) -> Used
    requires { PathRoom steps.now a b v numbers.old u places.old }
    ensures { Built (built numbers.old u places.old ++ one (path_of steps.now a b v)) numbers.new result places.new }
{
    let m = a.len + b.len;
    if m == 0 {
        return rows_spans::push_lone(numbers, places, u, v);
    }
    let mid = rows_corners::copy_arc(steps, a.at, a.count, a.from, a.len, places, u.steps);
    rows_corners::copy_arc(steps, b.at, b.count, b.from, b.len, places, mid);
    rows_spans::close_path(numbers, u, m)
}

// The cycles of a face, in the place of p such a cycle.
fn copy_around(
    cycles: &[u32; 512],
    steps: &[u32; 2048],
    p: Place,
    a: Stretch,
    b: Stretch,
    v: u32,
    numbers: &mut [u32],
    places: &mut [u32],
) -> Used
    requires { Puts cycles.now steps.now p a b v (length numbers.old) (length places.old) }
    ensures { Built (put_at cycles.now steps.now p a b v) numbers.new result places.new }
{
    let none = Used {
        cycles: 0,
        steps: 0,
    };
    let t = about(p);
    let w = copy_cycles(cycles, steps, t.ahead, numbers, places, none);
    let x = push_path(steps, a, b, v, numbers, places, w);
    copy_cycles(cycles, steps, t.behind, numbers, places, x)
}

// The cycles of two faces that become one along the step s of p and the step t of q: in the place of p what follows the one
// step and then what follows the other, or v alone, and then the other cycles of the face of q.
pub fn merged_cycles(
    cycles: &[u32; 512],
    steps: &[u32; 2048],
    p: Place,
    s: usize,
    q: Place,
    t: usize,
    v: u32,
    numbers: &mut [u32],
    places: &mut [u32],
) -> Used
    requires merging { Merging cycles.now steps.now p s q t v }
    requires room_for { RoomFor (length numbers.old) (length places.old) (merged_list cycles.now steps.now p s q t v) }
    ensures { Built (merged_list cycles.now steps.now p s q t v) numbers.new result places.new }
{
    let a = rows_stretches::following(p, s);
    let b = rows_stretches::following(q, t);
    let u = copy_around(cycles, steps, p, a, b, v, numbers, places);
    copy_others(cycles, steps, q, numbers, places, u)
}

// The cycles of a face in which p becomes two: in its place what follows its step s up to t, or v alone, and last what
// follows t up to s, or w alone.
pub fn parted_cycles(
    cycles: &[u32; 512],
    steps: &[u32; 2048],
    p: Place,
    s: usize,
    t: usize,
    v: u32,
    w: u32,
    numbers: &mut [u32],
    places: &mut [u32],
) -> Used
    requires parting { Parting cycles.now steps.now p s t v w }
    requires room_for { RoomFor (length numbers.old) (length places.old) (parted_list cycles.now steps.now p s t v w) }
    ensures { Built (parted_list cycles.now steps.now p s t v w) numbers.new result places.new }
{
    let empty = Stretch {
        at: p.at,
        count: p.count,
        from: 0,
        len: 0,
    };
    let a = rows_stretches::up_to(p, s, t);
    let u = copy_around(cycles, steps, p, a, empty, v, numbers, places);
    let b = rows_stretches::up_to(p, t, s);
    push_path(steps, b, empty, w, numbers, places, u)
}

// The cycles of two faces that become one without the cycles p and q.
pub fn ringed_cycles(
    cycles: &[u32; 512],
    steps: &[u32; 2048],
    p: Place,
    q: Place,
    numbers: &mut [u32],
    places: &mut [u32],
) -> Used
    requires ringing { Ringing cycles.now steps.now p q }
    requires room_for { RoomFor (length numbers.old) (length places.old) (ringed_list cycles.now steps.now p q) }
    ensures { Built (ringed_list cycles.now steps.now p q) numbers.new result places.new }
{
    let none = Used {
        cycles: 0,
        steps: 0,
    };
    let u = copy_others(cycles, steps, p, numbers, places, none);
    copy_others(cycles, steps, q, numbers, places, u)
}
