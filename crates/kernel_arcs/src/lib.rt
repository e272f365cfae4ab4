#![tactic(auto)]

ghost use Rattle.std.specs.Prelude.{◌≡◌, false, ◌∷◌, ◌++◌, map, ◌+◌, ◌<◌, ◌≤◌, length, take, drop, get_or, set};
ghost use Rattle.complex.specs.Lists.{total, one};
ghost use Rattle.complex.specs.Cells.{path};
ghost use Rattle.complex.specs.Sound.{ids_end, step_count};
ghost use Rattle.store.specs.View.{halfedge_of, width};
ghost use Rattle.store.specs.Edits.{kept};
ghost use Rattle.rows_spans.specs.Building.{Building, Built, built, RoomFor};
ghost use Rattle.decode_parts.specs.Lists.{numbers_read};
ghost use Rattle.rows_corners.specs.Faces.{Within, cycles_at};
ghost use Rattle.rows_corners.specs.Arcs.{arc_of, ArcRoom};
ghost use Rattle.rows_split.specs.Along.{near_side, far_side, bridge};
ghost use Rattle.rows_split.specs.Parts.{place_of, cycle_at, near_cycle, far_cycle, bridge_cycle, Cornered, RoomForBoth, SplitParting, Joining, Bridging};
ghost use Rattle.kernel_arcs.specs.Lists.{behind};

use rows_spans::{Spans, Used};
use rows_split::Place;

// ---- lists under construction in lent arrays

// A list with the cycles of a span after cycle c, which stands at p, that are not flagged.
fn behind(
    cycles: &[u32; 512],
    steps: &[u32; 2048],
    t: Spans,
    flags: &[bool],
    c: u32,
    p: Place,
    numbers: &mut [u32],
    places: &mut [u32],
    u: Used,
) -> Used
    requires within { Within cycles.now steps.now t }
    requires c_lt_count { c < t.cycles.count }
    requires p_value { p ≡ place_of cycles.now t c }
    requires count_in_bounds { t.cycles.count ≤ length flags.now }
    requires building { Building numbers.old u places.old }
    requires t_in_bounds { u.cycles + length (behind flags.now t.cycles.count c (cycles_at cycles.now steps.now t)) ≤ length numbers.old }
    requires t_in_bounds_2 { u.steps + total step_count (behind flags.now t.cycles.count c (cycles_at cycles.now steps.now t)) ≤ length places.old }
    ensures { Built (built numbers.old u places.old ++ behind flags.now t.cycles.count c (cycles_at cycles.now steps.now t)) numbers.new result places.new }
{
    let next = c as usize + 1;
    let end = p.at + store::places(1, p.m);
    kernel_lists::copy_cycles(
        cycles,
        t.cycles.first + next,
        t.cycles.count - next,
        steps,
        end,
        &flags[next..],
        numbers,
        places,
        u,
    )
}

// A list with a cycle more: an arc, and then a step.
fn and_arc(
    steps: &[u32; 2048],
    base: usize,
    n: usize,
    from: usize,
    len: usize,
    h: u32,
    numbers: &mut [u32],
    places: &mut [u32],
    u: Used,
) -> Used
    requires { ArcRoom steps.now base n from len numbers.old u places.old }
    ensures { Built (built numbers.old u places.old ++ one (path (map halfedge_of (arc_of steps.now base n from len) ++ one (halfedge_of h)))) numbers.new result places.new }
{
    let end = rows_corners::copy_arc(steps, base, n, from, len, places, u.steps);
    rows_spans::put_step(places, end, h);
    rows_spans::close_path(numbers, u, len + 1)
}

// ---- one cycle in two

// The cycles of a span that are not flagged; in the place of cycle c, the steps from s1 to before s2, and then e
// backward.
pub fn near_side(
    cycles: &[u32; 512],
    steps: &[u32; 2048],
    t: Spans,
    flags: &[bool],
    c: u32,
    p: Place,
    s1: u32,
    s2: u32,
    e: u32,
    numbers: &mut [u32],
    places: &mut [u32],
) -> Used
    requires cornered { Cornered cycles.now steps.now t c p s1 }
    requires cornered_2 { Cornered cycles.now steps.now t c p s2 }
    requires count_in_bounds { t.cycles.count ≤ length flags.now }
    requires false_value { get_or flags.now c false ≡ false }
    requires e_le_ids_end { e ≤ ids_end }
    requires room_for { RoomFor (length numbers.old) (length places.old) (kept (take t.cycles.count flags.now) (set (cycles_at cycles.now steps.now t) c (near_cycle e s1 s2 (cycle_at steps.now p)))) }
    ensures { Built (kept (take t.cycles.count flags.now) (set (cycles_at cycles.now steps.now t) c (near_cycle e s1 s2 (cycle_at steps.now p)))) numbers.new result places.new }
{
    let m = p.m as usize;
    let s = s1 as usize;
    let len = rows_corners::between(m, s, s2 as usize);
    let none = Used {
        cycles: 0,
        steps: 0,
    };
    let a = kernel_lists::copy_cycles(
        cycles,
        t.cycles.first,
        c as usize,
        steps,
        t.steps.first,
        flags,
        numbers,
        places,
        none,
    );
    let b = and_arc(steps, p.at, m, s, len, 2 * e + 1, numbers, places, a);
    behind(cycles, steps, t, flags, c, p, numbers, places, b)
}

// The steps of a cycle from s2 to before s1, and then e; then the cycles of a span that are not flagged.
pub fn far_side(
    cycles: &[u32; 512],
    steps: &[u32; 2048],
    t: Spans,
    flags: &[bool],
    p: Place,
    s1: u32,
    s2: u32,
    e: u32,
    numbers: &mut [u32],
    places: &mut [u32],
) -> Used
    requires within { Within cycles.now steps.now t }
    requires m_bound { p.at + width p.m ≤ 2048 }
    requires s1_bound { s1 < width p.m }
    requires s2_bound { s2 < width p.m }
    requires count_in_bounds { t.cycles.count ≤ length flags.now }
    requires e_le_ids_end { e ≤ ids_end }
    requires room_for { RoomFor (length numbers.old) (length places.old) (far_cycle e s1 s2 (cycle_at steps.now p) ∷ kept (take t.cycles.count flags.now) (cycles_at cycles.now steps.now t)) }
    ensures { Built (far_cycle e s1 s2 (cycle_at steps.now p) ∷ kept (take t.cycles.count flags.now) (cycles_at cycles.now steps.now t)) numbers.new result places.new }
{
    let m = p.m as usize;
    let s = s2 as usize;
    let len = rows_corners::between(m, s1 as usize, s);
    let none = Used {
        cycles: 0,
        steps: 0,
    };
    let u = and_arc(steps, p.at, m, s, m - len, 2 * e, numbers, places, none);
    kernel_lists::copy_cycles(
        cycles,
        t.cycles.first,
        t.cycles.count,
        steps,
        t.steps.first,
        flags,
        numbers,
        places,
        u,
    )
}

// How much of two arrays the lists of two faces take, one after the other.
#[derive(Clone, Copy)]
pub struct Parts {
    pub old: Used,
    pub new: Used,
}

// The near side without the moved cycles; after it the far side, and then the moved cycles.
pub fn halves(
    cycles: &[u32; 512],
    steps: &[u32; 2048],
    t: Spans,
    script: &[u8],
    moved: u32,
    place: usize,
    c: u32,
    p: Place,
    s1: u32,
    s2: u32,
    e: u32,
    numbers: &mut [u32],
    places: &mut [u32],
) -> Parts
    requires split_parting { SplitParting cycles.now steps.now t script.now moved place c p s1 s2 e }
    requires room_for_both { RoomForBoth (length numbers.old) (length places.old) (near_side e c s1 s2 (numbers_read script.now place moved) (cycles_at cycles.now steps.now t)) (far_side e c s1 s2 (numbers_read script.now place moved) (cycles_at cycles.now steps.now t)) }
    ensures built { Built (near_side e c s1 s2 (numbers_read script.now place moved) (cycles_at cycles.now steps.now t)) numbers.new result.old places.new }
    ensures built_2 { Built (far_side e c s1 s2 (numbers_read script.now place moved) (cycles_at cycles.now steps.now t)) (drop result.old.cycles numbers.new) result.new (drop result.old.steps places.new) }
{
    let mut flags = [false; 512];
    script::mark_moved(script, place, moved, &mut flags);
    let mut stays = [false; 512];
    rows_corners::others(&flags, &mut stays);
    let a = near_side(cycles, steps, t, &flags, c, p, s1, s2, e, numbers, places);
    let i = a.cycles;
    let j = a.steps;
    let b = far_side(
        cycles,
        steps,
        t,
        &stays,
        p,
        s1,
        s2,
        e,
        &mut numbers[i..],
        &mut places[j..],
    );
    Parts { old: a, new: b }
}

// ---- two cycles as one

// A list with a cycle more: a cycle from s1 on, e, another from s2 on, and e backward.
fn and_joined(
    steps: &[u32; 2048],
    p: Place,
    s1: u32,
    q: Place,
    s2: u32,
    e: u32,
    numbers: &mut [u32],
    places: &mut [u32],
    u: Used,
) -> Used
    requires joining { Joining steps.now p s1 q s2 e }
    requires building { Building numbers.old u places.old }
    requires cycles_in_bounds { u.cycles < length numbers.old }
    requires m_in_bounds { u.steps + (p.m + q.m + 2) ≤ length places.old }
    ensures { Built (built numbers.old u places.old ++ one (bridge_cycle e s1 (cycle_at steps.now p) s2 (cycle_at steps.now q))) numbers.new result places.new }
{
    let m = p.m as usize;
    let n = q.m as usize;
    let mid = rows_corners::copy_arc(steps, p.at, m, s1 as usize, m, places, u.steps);
    let next = rows_spans::put_step(places, mid, 2 * e);
    let last = rows_corners::copy_arc(steps, q.at, n, s2 as usize, n, places, next);
    rows_spans::put_step(places, last, 2 * e + 1);
    rows_spans::close_path(numbers, u, m + n + 2)
}

// The cycles of a span without c2; in the place of c1, both.
pub fn bridge_list(
    cycles: &[u32; 512],
    steps: &[u32; 2048],
    t: Spans,
    c1: u32,
    p: Place,
    s1: u32,
    c2: u32,
    q: Place,
    s2: u32,
    e: u32,
    numbers: &mut [u32],
    places: &mut [u32],
) -> Used
    requires bridging { Bridging cycles.now steps.now t c1 p s1 c2 q s2 e }
    requires room_for { RoomFor (length numbers.old) (length places.old) (bridge e c1 s1 c2 s2 (cycles_at cycles.now steps.now t)) }
    ensures { Built (bridge e c1 s1 c2 s2 (cycles_at cycles.now steps.now t)) numbers.new result places.new }
{
    let mut flags = [false; 512];
    let i = c2 as usize;
    flags[i] = true;
    let none = Used {
        cycles: 0,
        steps: 0,
    };
    let a = kernel_lists::copy_cycles(
        cycles,
        t.cycles.first,
        c1 as usize,
        steps,
        t.steps.first,
        &flags,
        numbers,
        places,
        none,
    );
    let b = and_joined(steps, p, s1, q, s2, e, numbers, places, a);
    behind(cycles, steps, t, &flags, c1, p, numbers, places, b)
}
