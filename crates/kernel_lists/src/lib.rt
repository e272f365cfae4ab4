#![tactic(auto)]

// Cycles of a drawing copied into a list under construction.
ghost use Rattle.std.specs.Prelude.{◌≡◌, cond, ◌∷◌, [], ◌++◌, ◌+◌, ◌≤◌, take, drop, length};
ghost use Rattle.store.specs.View.{width, width_sum, cycle_of, cycles_from};
ghost use Rattle.store.specs.Edits.{kept};
ghost use Rattle.rows_spans.specs.Building.{Building, Built, built};

use rows_spans::Used;

// A cycle with the number c, copied unless it is skipped.
fn copy_cycle(
    c: u32,
    src: &[u32],
    from: usize,
    skip: bool,
    counts: &mut [u32],
    steps: &mut [u32],
    u: Used,
) -> Used
    requires building { Building counts.old u steps.old }
    requires c_in_bounds { from + width c ≤ length src.now }
    requires c_in_bounds_2 { u.cycles + length (cond skip [] (c ∷ [])) ≤ length counts.old }
    requires c_in_bounds_3 { u.steps + width_sum (cond skip [] (c ∷ [])) ≤ length steps.old }
    ensures value { result ≡ record { cycles = u.cycles + length (cond skip [] (c ∷ [])); steps = u.steps + width_sum (cond skip [] (c ∷ [])) } }
    ensures built { Built (built counts.old u steps.old ++ cond skip [] (cycle_of c (drop from src.now) ∷ [])) counts.new result steps.new }
{
    if skip {
        return u;
    }
    let i = u.cycles;
    let j = u.steps;
    let w = store::places(1, c);
    counts[i] = c;
    let e = rows_spans::copy_run(src, from, w, steps, j);
    Used {
        cycles: i + 1,
        steps: e,
    }
}

// The list with k cycles more, from a given one on, without those that are skipped.
pub fn copy_cycles(
    cycles: &[u32],
    from: usize,
    k: usize,
    src: &[u32],
    step: usize,
    skip: &[bool],
    counts: &mut [u32],
    steps: &mut [u32],
    u: Used,
) -> Used
    requires building { Building counts.old u steps.old }
    requires k_in_bounds { from + k ≤ length cycles.now }
    requires cycles_in_bounds { step + width_sum (take k (drop from cycles.now)) ≤ length src.now }
    requires k_in_bounds_2 { k ≤ length skip.now }
    requires cycles_in_bounds_2 { u.cycles + length (kept (take k skip.now) (take k (drop from cycles.now))) ≤ length counts.old }
    requires cycles_in_bounds_3 { u.steps + width_sum (kept (take k skip.now) (take k (drop from cycles.now))) ≤ length steps.old }
    ensures built { Built (built counts.old u steps.old ++ kept (take k skip.now) (cycles_from (take k (drop from cycles.now)) (drop step src.now))) counts.new result steps.new }
    ensures value { result ≡ record { cycles = u.cycles + length (kept (take k skip.now) (take k (drop from cycles.entry.now))); steps = u.steps + width_sum (kept (take k skip.now) (take k (drop from cycles.entry.now))) } }
{
    let mut out = u;
    let mut at = step;
    for i in 0..k {
        let c = cycles[from + i];
        out = copy_cycle(c, src, at, skip[i], counts, steps, out);
        at = at + store::places(1, c);
    }
    out
}
