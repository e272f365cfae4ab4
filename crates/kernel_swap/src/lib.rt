#![tactic(auto)]

ghost use Rattle.std.specs.Prelude.{◌≡◌, ◌⊎◌, true, ◌+◌, ◌≤◌, take, drop, length};
ghost use Rattle.number.specs.Readers.{spread};
ghost use Rattle.complex.specs.Sound.{over, steps_in, cycles_most, steps_most};
ghost use Rattle.complex.specs.Edits.{reshape, rewired, same_vertex};
ghost use Rattle.store.specs.Sheet.{all_real};
ghost use Rattle.store.specs.Places.{entry_cycles};
ghost use Rattle.store.specs.View.{width, width_sum, cycle_total, step_total, sheet_of, Fits};
ghost use Rattle.rows_steps.specs.Swap.{swap_word, swap_half, swap_steps, Wrote, Swapped};
ghost use Rattle.lent.specs.Arrays.{held_by, Lengths};
ghost use Rattle.kernel_swap.specs.Swaps.{Ahead, Enough, SwappedIn};
ghost use Rattle.lent.specs.Sheets.{arrays, Same};

use lent::SheetMut;
use rows_steps::Swap;

// The first n numbers, g places further back.
fn shift(l: &mut [u32], n: usize, g: usize)
    requires { g + n ≤ length l.old }
    ensures { take n (drop g l.new) ≡ take n l.old }
{
    if g == 0 {
        return;
    }
    l.copy_within(0..n, g);
}

// The steps of a cycle, swapped, put at a place of the same array.
fn swap_run(steps: &mut [u32], from: usize, n: usize, at: usize, t: Swap) -> usize
    requires n_bound { t.n ≤ 2 }
    requires n_in_bounds { from + n ≤ length steps.old }
    requires ahead { Ahead (spread (swap_word t)) n (drop from steps.old) at from }
    ensures value { result ≡ length (spread (swap_word t) (take n (drop from steps.old))) }
    ensures wrote { Wrote steps.old at (spread (swap_word t) (take n (drop from steps.old))) steps.new }
{
    let mut w: usize = 0;
    for i in 0..n {
        let s = steps[from + i];
        let k = rows_steps::put_step(steps, at + w, s, t);
        w = w + k;
    }
    w
}

// A cycle with the number c, swapped, put at a place of the same array.
fn swap_cycle(c: u32, steps: &mut [u32], from: usize, at: usize, t: Swap) -> usize
    requires n_bound { t.n ≤ 2 }
    requires c_in_bounds { from + width c ≤ length steps.old }
    requires ahead { Ahead (swap_steps t c) (width c) (drop from steps.old) at from }
    ensures value { result ≡ length (swap_steps t c (take (width c) (drop from steps.old))) }
    ensures wrote { Wrote steps.old at (swap_steps t c (take (width c) (drop from steps.old))) steps.new }
{
    if c == 0 {
        steps[at] = steps[from];
        return 1;
    }
    swap_run(steps, from, store::wide(c), at, t)
}

// The first n cycles, whose steps begin at g, swapped, and their steps put at the front.
fn swap_cycles(cycles: &mut [u32], n: usize, steps: &mut [u32], g: usize, t: Swap)
    requires n_bound { t.n ≤ 2 }
    requires n_in_bounds { n ≤ length cycles.old }
    requires cycles_in_bounds { g + width_sum (take n cycles.old) ≤ length steps.old }
    requires steps_len_bound { length steps.old ≤ steps_most }
    requires enough { Enough t (take n cycles.old) (drop g steps.old) g }
    ensures { Swapped t (take n cycles.old) (drop g steps.old) cycles.new steps.new }
{
    let mut from: usize = 0;
    let mut at: usize = 0;
    for i in 0..n {
        let c = cycles[i];
        let w = swap_cycle(c, steps, g + from, at, t);
        cycles[i] = rows_steps::number_of(c, w);
        from = from + store::places(1, c);
        at = at + w;
    }
}

// The first n cycles, with m steps in all, swapped in place; the steps become at most g more.
fn swap_pools(
    cycles: &mut [u32; 512],
    n: usize,
    steps: &mut [u32; 2048],
    m: usize,
    g: usize,
    t: Swap,
)
    requires n_bound { t.n ≤ 2 }
    requires n_le_cycles_most { n ≤ cycles_most }
    requires m_value { m ≡ width_sum (take n cycles.old) }
    requires m_bound { g + m ≤ steps_most }
    requires enough { Enough t (take n cycles.old) steps.old g }
    ensures swapped { Swapped t (take n cycles.old) steps.old cycles.new steps.new }
    ensures cycles_len { length cycles.new ≡ cycles_most }
    ensures steps_len { length steps.new ≡ steps_most }
{
    shift(steps, m, g);
    swap_cycles(cycles, n, steps, g, t);
}

// The steps of one edge replaced by others: k cycles and m steps are in use, and the steps become g more if they become more; no
// cycle may become empty.
pub fn swap_steps(sheet: &mut SheetMut<'_>, k: usize, m: usize, g: usize, t: Swap)
    requires fits { Fits (held_by (arrays sheet.old)) }
    requires lengths { Lengths (arrays sheet.old) }
    requires k_value { k ≡ cycle_total (held_by (arrays sheet.old)) }
    requires n_bound { t.n ≤ 2 }
    requires by_value { all_real (spread entry_cycles (reshape (rewired same_vertex (swap_half t)) (sheet_of (held_by (arrays sheet.old))).cells)) ≡ true }
    requires by_bound { over steps_in (reshape (rewired same_vertex (swap_half t)) (sheet_of (held_by (arrays sheet.old))).cells) ≤ steps_most }
    requires m_value { m ≡ step_total (held_by (arrays sheet.old)) }
    requires fact { ((t.n ≤ 1) × (g ≡ 0)) ⊎ ((1 ≤ t.n) × (over steps_in (reshape (rewired same_vertex (swap_half t)) (sheet_of (held_by (arrays sheet.old))).cells) ≡ g + m)) }
    ensures swapped_in { SwappedIn t (arrays sheet.old) (arrays sheet.new) }
    ensures same { Same sheet.old sheet.new }
    ensures kept { arrays sheet.new ≡ record (arrays sheet.old) { cycles = sheet.new.cycles.now; steps = sheet.new.steps.now } }
{
    swap_pools(sheet.cycles, k, sheet.steps, m, g, t);
}
