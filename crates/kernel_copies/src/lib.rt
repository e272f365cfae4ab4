#![tactic(auto)]

ghost use Rattle.std.specs.Prelude.{◌≡◌, true, T, ◌+◌, ◌*◌, ◌%◌, ◌<◌, ◌≤◌, length};
ghost use Rattle.std.proofs.Math.Seq.{paste};
ghost use Rattle.complex.specs.Lists.{rising};
ghost use Rattle.complex.specs.Cells.{ids as ids_of};
ghost use Rattle.complex.specs.Sound.{cells_most, bends_most, ids_end};
ghost use Rattle.store.specs.View.{sheet_of, Fits, cycle_total, bend_total};
ghost use Rattle.rows_new.specs.Runs.{run_at};
ghost use Rattle.rows_new.specs.Copies.{repeated};
ghost use Rattle.rows_new.specs.Requirements.{CopiesRoom};
ghost use Rattle.lent.specs.Arrays.{held_by, positions_in, normal, Lengths};
ghost use Rattle.kernel_copies.specs.Copies.{filled_rows, numbered_rows, RowsPut, CopiesCome, UsesCopied};
ghost use Rattle.lent.specs.Sheets.{arrays, Same};

use coordinate::Position;
use lent::SheetMut;
use rows_uses::Use;

// The place after i of k places in a round.
fn around(i: usize, k: usize) -> usize
    requires { i < k }
    ensures { result ≡ (i + 1) % k }
{
    if i + 1 < k {
        return i + 1;
    }
    0
}

// The k bends from `first` on, put n times from `base` on; they stand before `base`.
fn put_bends(
    bx: &mut [f64; 2048],
    by: &mut [f64; 2048],
    base: usize,
    first: usize,
    k: usize,
    n: usize,
)
    requires k_bound { first + k ≤ base }
    requires k_bound_2 { base + n * k ≤ bends_most }
    requires bx_len { (length bx.old ≡ bends_most) × (length by.old ≡ bends_most) }
    ensures by_after { positions_in bx.new by.new ≡ paste (positions_in bx.old by.old) base (repeated n (run_at first k (positions_in bx.old by.old))) (n * k) }
    ensures bx_len_2 { (length bx.new ≡ bends_most) × (length by.new ≡ bends_most) }
{
    let t = n * k;
    let mut i: usize = 0;
    for j in 0..t {
        let p = lent::bend_at(bx, by, first + i);
        lent::put_bend(bx, by, base + j, p);
        i = around(i, k);
    }
}

// x is written into n rows from one on.
fn fill_rows(l: &mut [u32; 256], at: usize, n: usize, x: u32)
    requires { at + n ≤ cells_most }
    ensures { l.new ≡ filled_rows l.old at x n }
{
    for i in 0..n {
        l[at + i] = x;
    }
}

// The numbers from x on are written into n rows from one on.
fn number_rows(l: &mut [u32; 256], at: usize, n: usize, x: u32)
    requires room { at + n ≤ cells_most }
    requires few { x + n ≤ ids_end }
    ensures { l.new ≡ numbered_rows l.old at x n }
{
    let mut id = x;
    for i in 0..n {
        l[at + i] = id;
        id = id + 1;
    }
}

// A position is written into n rows from one on.
fn fill_positions(px: &mut [f64; 256], py: &mut [f64; 256], at: usize, n: usize, p: Position)
    requires { at + n ≤ cells_most }
    ensures px_after { px.new ≡ filled_rows px.old at p.x n }
    ensures py_after { py.new ≡ filled_rows py.old at p.y n }
{
    for i in 0..n {
        lent::put_position(px, py, at + i, p);
    }
}

// n rows like one of those in use, after the last, with the ids from the next one on: one list of rows after another, which is
// faster than row by row.
fn put_rows(sheet: &mut SheetMut<'_>, row: usize, n: usize)
    requires row_lt_count { row < sheet.old.count.now }
    requires n_bound { sheet.old.count.now + n ≤ cells_most }
    requires n_bound_2 { sheet.old.next.now + n ≤ ids_end }
    ensures rows_put { RowsPut sheet.old.next.now sheet.old.count.now row n sheet.old.ids.now sheet.old.kinds.now sheet.old.starts.now sheet.old.ends.now sheet.old.bends.now sheet.old.counts.now sheet.old.px.now sheet.old.py.now sheet.new.ids.now sheet.new.kinds.now sheet.new.starts.now sheet.new.ends.now sheet.new.bends.now sheet.new.counts.now sheet.new.px.now sheet.new.py.now }
    ensures same { Same sheet.old sheet.new }
    ensures kept { arrays sheet.new ≡ record (arrays sheet.new) { next = sheet.old.next.now; count = sheet.old.count.now; cycles = sheet.old.cycles.now; steps = sheet.old.steps.now; bx = sheet.old.bx.now; by = sheet.old.by.now } }
{
    let at = *sheet.count;
    let kind = sheet.kinds[row];
    let start = sheet.starts[row];
    let end = sheet.ends[row];
    let bend = sheet.bends[row];
    let cycle = sheet.counts[row];
    let p = lent::vertex_at(sheet.px, sheet.py, row);
    number_rows(sheet.ids, at, n, *sheet.next);
    fill_rows(sheet.kinds, at, n, kind);
    fill_rows(sheet.starts, at, n, start);
    fill_rows(sheet.ends, at, n, end);
    fill_rows(sheet.bends, at, n, bend);
    fill_rows(sheet.counts, at, n, cycle);
    fill_positions(sheet.px, sheet.py, at, n, p);
}

// n copies of the vertex or edge in a row, their bends after the `base` bends in use.
pub fn put_copies(sheet: &mut SheetMut<'_>, base: usize, row: usize, n: usize)
    requires copies_room { CopiesRoom (held_by (arrays sheet.old)) row n }
    requires lengths { Lengths (arrays sheet.old) }
    requires by_value { normal (arrays sheet.old) ≡ true }
    requires base_value { base ≡ bend_total (held_by (arrays sheet.old)) }
    ensures copies_come { CopiesCome (arrays sheet.old) row n (arrays sheet.new) }
    ensures same { Same sheet.old sheet.new }
    ensures kept { arrays sheet.new ≡ record (arrays sheet.new) { next = sheet.old.next.now + n; count = sheet.old.count.now + n; cycles = sheet.old.cycles.now; steps = sheet.old.steps.now } }
{
    let k = store::wide(sheet.bends[row]);
    let first = rows_spans::bend_start(sheet.bends, row);
    put_bends(sheet.bx, sheet.by, base, first, k, n);
    put_rows(sheet, row, n);
    *sheet.next += n as u32;
    *sheet.count += n;
}

// Every use of i in the m cycles but the first, counted from k0, gets a copy of its own: the ids from the next one on.
pub fn copy_uses(u: Use, sheet: &mut SheetMut<'_>, m: usize, i: u32, k0: usize)
    requires fits { Fits (held_by (arrays sheet.old)) }
    requires lengths { Lengths (arrays sheet.old) }
    requires t { T (rising 0 (ids_of (sheet_of (held_by (arrays sheet.old))).cells) (sheet_of (held_by (arrays sheet.old))).next) }
    requires m_value { m ≡ cycle_total (held_by (arrays sheet.old)) }
    requires next_le_ids_end { sheet.old.next.now ≤ ids_end }
    requires k0_bound { k0 ≤ 4096 }
    ensures uses_copied { UsesCopied u i k0 (arrays sheet.old) (arrays sheet.new) }
    ensures same { Same sheet.old sheet.new }
    ensures kept { arrays sheet.new ≡ record (arrays sheet.old) { steps = sheet.new.steps.now } }
{
    let next = *sheet.next;
    let steps = &mut *sheet.steps;
    rows_copied::copy_cycles(u, sheet.cycles, m, steps, i, next, k0);
}
