#![tactic(auto)]

ghost use Rattle.std.specs.Prelude.{◌≡◌, true, false, ◌+◌, ◌<◌, ◌≤◌, take, length};
ghost use Rattle.complex.specs.Lists.{total};
ghost use Rattle.complex.specs.Sound.{cells_most, cycles_most, steps_most, bends_most};
ghost use Rattle.store.specs.Edits.{CyclesKept, places_of};
ghost use Rattle.rows_slide.specs.Slid.{Slid, Seen, Alike, BendsKept};
ghost use Rattle.rows_slide.specs.Stretches.{StretchAt};

// n elements go to an earlier place of the same array.
pub fn slide<T: Copy>(l: &mut [T], from: usize, n: usize, to: usize)
    requires to_le_from { to ≤ from }
    requires n_in_bounds { from + n ≤ length l.old }
    ensures { Slid l.old from n to l.new }
{
    if from != to {
        l.copy_within(from..from + n, to);
    }
}

// Up to where the rows from i on are living, looked at eight at a time.
fn living_eights(dead: &[bool], i: usize, n: usize) -> usize
    requires i_le_n { i ≤ n }
    requires n_in_bounds { n ≤ length dead.now }
    ensures { Seen dead.now false i n result }
{
    let mut k = i;
    // Not a range: eight flags are looked at in one step, which is faster than one by one.
    while k + 8 <= n {
        let a = dead[k] | dead[k + 1] | dead[k + 2] | dead[k + 3];
        let b = dead[k + 4] | dead[k + 5] | dead[k + 6] | dead[k + 7];
        if a | b {
            return k;
        }
        k = k + 8;
    }
    k
}

// The first dead row from i on, or n.
pub fn living_until(dead: &[bool], i: usize, n: usize) -> usize
    requires i_le_n { i ≤ n }
    requires n_in_bounds { n ≤ length dead.now }
    ensures { Alike dead.now false i n result }
{
    let eights = living_eights(dead, i, n);
    for k in eights..n {
        if dead[k] {
            return k;
        }
    }
    n
}

// The first living row from i on, or n.
pub fn dead_until(dead: &[bool], i: usize, n: usize) -> usize
    requires i_le_n { i ≤ n }
    requires n_in_bounds { n ≤ length dead.now }
    ensures { Alike dead.now true i n result }
{
    for k in i..n {
        if !dead[k] {
            return k;
        }
    }
    n
}

// Dead rows up to mid, the living ones after them up to next, and how many places the dead and the living have.
#[derive(Clone, Copy)]
struct Stretch {
    mid: usize,
    next: usize,
    gone: usize,
    stay: usize,
}

// The dead rows from i on and the living ones after them, if counts has the places of each row.
fn next_stretch(dead: &[bool], counts: &[u32], n: usize, i: usize) -> Stretch
    requires i_lt_n { i < n }
    requires n_in_bounds { n ≤ length dead.now }
    requires n_in_bounds_2 { n ≤ length counts.now }
    requires counts_bound { total (places_of 0) (take n counts.now) ≤ 2048 }
    ensures { StretchAt dead.now counts.now n i result }
{
    let mid = dead_until(dead, i, n);
    let next = living_until(dead, mid, n);
    let gone = rows_spans::place_sum(0, counts, i, mid - i);
    let stay = rows_spans::place_sum(0, counts, mid, next - mid);
    Stretch {
        mid: mid,
        next: next,
        gone: gone,
        stay: stay,
    }
}

// The bends of the first n rows that are not dead, moved to the front, if counts has the bends of each row.
pub fn drop_bends(
    dead: &[bool; 256],
    counts: &[u32; 256],
    n: usize,
    bx: &mut [f64; 2048],
    by: &mut [f64; 2048],
)
    requires n_le_cells_most { n ≤ cells_most }
    requires counts_bound { total (places_of 0) (take n counts.now) ≤ bends_most }
    requires dead_len { (length dead.now ≡ cells_most) × (length counts.now ≡ cells_most) × (length bx.old ≡ bends_most) × (length by.old ≡ bends_most) }
    ensures { BendsKept (take n dead.now) (take n counts.now) bx.old by.old bx.new by.new }
{
    let mut i: usize = 0;
    let mut at: usize = 0;
    let mut to: usize = 0;
    // Not a range: how far a stretch goes is only seen at its start.
    while i < n {
        let s = next_stretch(dead, counts, n, i);
        let from = at + s.gone;
        let m = s.stay;
        slide(bx, from, m, to);
        slide(by, from, m, to);
        at = from + m;
        to = to + m;
        i = s.next;
    }
}

// The cycles of the first n rows that are not dead, and the steps of these, moved to the front, if counts has the cycles of each row.
pub fn drop_cycles(
    dead: &[bool; 256],
    counts: &[u32; 256],
    n: usize,
    cycles: &mut [u32; 512],
    steps: &mut [u32; 2048],
)
    requires n_le_cells_most { n ≤ cells_most }
    requires counts_bound { total (places_of 0) (take n counts.now) ≤ cycles_most }
    requires cycles_bound { total (places_of 1) (take (total (places_of 0) (take n counts.now)) cycles.old) ≤ steps_most }
    requires dead_len { (length dead.now ≡ cells_most) × (length counts.now ≡ cells_most) × (length cycles.old ≡ cycles_most) × (length steps.old ≡ steps_most) }
    ensures { CyclesKept (take n dead.now) (take n counts.now) cycles.old steps.old cycles.new steps.new }
{
    let mut i: usize = 0;
    let mut at: usize = 0;
    let mut to: usize = 0;
    let mut step_at: usize = 0;
    let mut step_to: usize = 0;
    // Not a range: how far a stretch goes is only seen at its start.
    while i < n {
        let s = next_stretch(dead, counts, n, i);
        let from = at + s.gone;
        let m = s.stay;
        let step_from = step_at + rows_spans::place_sum(1, cycles, at, s.gone);
        let k = rows_spans::place_sum(1, cycles, from, m);
        slide(steps, step_from, k, step_to);
        slide(cycles, from, m, to);
        step_at = step_from + k;
        step_to = step_to + k;
        at = from + m;
        to = to + m;
        i = s.next;
    }
}
