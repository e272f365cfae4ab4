#![tactic(auto)]

ghost use Rattle.std.specs.Prelude.{◌≡◌, ◌∷◌, [], ◌++◌, ◌+◌, ◌-◌, ◌<◌, ◌≤◌, take, drop, length};
ghost use Rattle.complex.specs.Lists.{total};
ghost use Rattle.complex.specs.Sound.{cycles_most, steps_most};
ghost use Rattle.store.specs.View.{cycles_from};
ghost use Rattle.store.specs.Edits.{places_of};
ghost use Rattle.rows_spans.specs.Runs.{span_of, spans_of, Spliced};
ghost use Rattle.kernel_cycles.specs.Replacing.{Moved, RowCounted, and_one, ReplacesIn, ReplacedIn};
ghost use Rattle.lent.specs.Sheets.{arrays, Same};

use answer::Totals;
use lent::SheetMut;
use rows_spans::{Span, Spans};

// The places that some counts stand for, if the n counts in use stand for so many in all.
fn span_in(z: usize, counts: &[u32], first: usize, count: usize, n: usize, all: usize) -> Span
    requires count_bound { first + count ≤ n }
    requires n_in_bounds { n ≤ length counts.now }
    requires all_value { all ≡ total (places_of z) (take n counts.now) }
    requires all_le_steps_most { all ≤ steps_most }
    ensures { result ≡ span_of z counts.now (record { first = first; count = count; rest = n - (first + count) }) }
{
    let a = rows_spans::place_sum(z, counts, 0, first);
    let b = rows_spans::place_sum(z, counts, first, count);
    Span {
        first: a,
        count: b,
        rest: all - (a + b),
    }
}

// Where the cycles and the steps of the cell in a row stand, if the sums are known.
pub fn spans_at(counts: &[u32; 256], cycles: &[u32; 512], row: usize, t: Totals) -> Spans
    requires { RowCounted counts.now cycles.now row t }
    ensures { result ≡ spans_of counts.now t.cells row cycles.now }
{
    let c = span_in(0, counts, row, 1, t.cells, t.cycles);
    let s = span_in(1, cycles, c.first, c.count, t.cycles, t.steps);
    Spans {
        cycles: c,
        steps: s,
    }
}

// n numbers go to a later place of the same array, the last one first.
fn shift_back(l: &mut [u32], from: usize, n: usize, to: usize)
    requires from_le_to { from ≤ to }
    requires n_in_bounds { to + n ≤ length l.old }
    ensures { Moved l.old from n to l.new }
{
    for i in (0..n).rev() {
        l[to + i] = l[from + i];
    }
}

// n numbers go to an earlier place of the same array, the first one first.
fn shift_forth(l: &mut [u32], from: usize, n: usize, to: usize)
    requires to_le_from { to ≤ from }
    requires n_in_bounds { from + n ≤ length l.old }
    ensures { Moved l.old from n to l.new }
{
    for i in 0..n {
        l[to + i] = l[from + i];
    }
}

// n numbers go to another place of the same array.
fn shift(l: &mut [u32], from: usize, n: usize, to: usize)
    requires n_in_bounds { from + n ≤ length l.old }
    requires n_in_bounds_2 { to + n ≤ length l.old }
    ensures { Moved l.old from n to l.new }
{
    if from == to {
        return;
    }
    if from < to {
        shift_back(l, from, n, to);
        return;
    }
    shift_forth(l, from, n, to);
}

// The first n numbers of another array for the run s; what follows the run stays after them.
pub fn splice(l: &mut [u32], s: Span, new: &[u32], n: usize)
    requires rest_in_bounds { s.first + s.count + s.rest ≤ length l.old }
    requires n_in_bounds { n ≤ length new.now }
    requires rest_in_bounds_2 { s.first + n + s.rest ≤ length l.old }
    ensures { Spliced l.old s new.now n l.new }
{
    shift(l, s.first + s.count, s.rest, s.first + n);
    rows_spans::copy_run(new, 0, n, l, s.first);
}

// The face in a row, whose cycles and steps stand at s, gets the n cycles, of m steps, that two other arrays hold.
pub fn replace_cycles(
    sheet: &mut SheetMut<'_>,
    row: usize,
    s: Spans,
    numbers: &[u32],
    n: usize,
    places: &[u32],
    m: usize,
)
    requires { ReplacesIn (arrays sheet.old) row s numbers.now n places.now m }
    ensures replaced_in { ReplacedIn (arrays sheet.old) row s n m (cycles_from (take n numbers.now) places.now) (arrays sheet.new) }
    ensures same { Same sheet.old sheet.new }
    ensures kept { arrays sheet.new ≡ record (arrays sheet.old) { counts = sheet.new.counts.now; cycles = sheet.new.cycles.now; steps = sheet.new.steps.now } }
{
    splice(sheet.cycles, s.cycles, numbers, n);
    splice(sheet.steps, s.steps, places, m);
    sheet.counts[row] = n as u32;
}

// The number x after the run s; what follows the run goes one place further.
fn add_number(l: &mut [u32], s: Span, x: u32)
    requires { s.first + s.count + s.rest < length l.old }
    ensures { Spliced l.old s (take s.count (drop s.first l.old) ++ (x ∷ [])) (s.count + 1) l.new }
{
    let at = s.first + s.count;
    shift_back(l, at, s.rest, at + 1);
    l[at] = x;
}

// The face in a row, whose cycles and steps stand at s, gets a cycle of one place more: the vertex h alone if m is 0,
// the halfedge h if it is 1.
pub fn add_cycle(sheet: &mut SheetMut<'_>, row: usize, s: Spans, m: u32, h: u32)
    requires { ReplacesIn (arrays sheet.old) row s (and_one cycles_most sheet.old.cycles.now s.cycles m) (s.cycles.count + 1) (and_one steps_most sheet.old.steps.now s.steps h) (s.steps.count + 1) }
    ensures replaced_in { ReplacedIn (arrays sheet.old) row s (s.cycles.count + 1) (s.steps.count + 1) (cycles_from (take (s.cycles.count + 1) (and_one cycles_most sheet.old.cycles.now s.cycles m)) (and_one steps_most sheet.old.steps.now s.steps h)) (arrays sheet.new) }
    ensures same { Same sheet.old sheet.new }
    ensures kept { arrays sheet.new ≡ record (arrays sheet.old) { counts = sheet.new.counts.now; cycles = sheet.new.cycles.now; steps = sheet.new.steps.now } }
{
    let c = s.cycles;
    let p = s.steps;
    add_number(sheet.cycles, c, m);
    add_number(sheet.steps, p, h);
    sheet.counts[row] = (c.count + 1) as u32;
}
