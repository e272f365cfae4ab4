#![tactic(auto)]

ghost use Rattle.std.specs.Prelude.{◌≡◌, ◌+◌, ◌*◌, ◌<◌, ◌≤◌, length, drop};
ghost use Rattle.number.specs.Readers.{times};
ghost use Rattle.bends.specs.Bends.{positions_at};
ghost use Rattle.complex.specs.Sound.{cells_most, bends_most};
ghost use Rattle.complex.specs.File.{read_cell};
ghost use Rattle.call_load.specs.Loads.{LoadRoom, PartsStored, CountsRead};
ghost use Rattle.call_load.specs.Bare.{BendsTaken, Stays, exit_of, RowsTold, RowsLoaded};
ghost use Rattle.lent.specs.Sheets.{arrays, Same};

use file_read::Used;
use lent::SheetMut;
use store::Shape;

// The ceilings.
const CELLS_MOST: usize = 256;

const BENDS_MOST: usize = 2048;

// Every function below is put into its callers: there it is known whether the bends are kept.

// The cycles of a shape, from a place on where its bends stand before them: the place after them and what is in use with them. There must be
// room and bytes for both.
#[inline(always)]
fn load_parts(
    s: &[u8],
    first: usize,
    shape: Shape,
    cycles: &mut [u32; 512],
    steps: &mut [u32; 2048],
    used: Used,
) -> Option<(usize, Used)>
    requires first_in_bounds { first ≤ length s.now }
    requires load_room { LoadRoom used cycles.old steps.old }
    ensures { PartsStored s.now first shape cycles.old steps.old used cycles.new steps.new result }
{
    let b = store::wide(store::bend_count(shape));
    let k = store::wide(store::cycle_count(shape));
    if BENDS_MOST - used.bends < b {
        return None;
    }
    let bytes = 16 * b;
    if s.len() - first < bytes {
        return None;
    }
    let more = Used {
        bends: used.bends + b,
        cycles: used.cycles,
        steps: used.steps,
    };
    file_read::load_cycles(s, first + bytes, k, cycles, steps, more)
}

// The n bends from a place on are put into arrays from another place on where they are kept; else they are only looked at: whether they, and
// those before them, lie in bounds.
#[inline(always)]
fn bends_taken(
    s: &[u8],
    first: usize,
    n: u32,
    bx: &mut [f64; 2048],
    by: &mut [f64; 2048],
    at: usize,
    keep: bool,
    good: bool,
) -> bool
    requires n_in_bounds { first + 16 * n ≤ length s.now }
    requires n_bound { at + n ≤ bends_most }
    requires bx_len { length bx.old ≡ bends_most }
    requires by_len { length by.old ≡ bends_most }
    ensures { BendsTaken keep good (positions_at s.now first n) at n bx.old by.old bx.new by.new result }
{
    if keep {
        kernel_add::put_bends(s, first, n, bx, by, at);
        return good;
    }
    if good {
        return bends::bends_within(s, first, n);
    }
    false
}

// The n cells from a place on, with nothing after them, and whether the bends that were looked at lie in bounds; none where the bytes are not
// such cells, or there is no room. Bends that are not kept are looked at in the bytes.
#[inline(always)]
fn load_cells(s: &[u8], at: usize, n: usize, sheet: &mut SheetMut<'_>, keep: bool) -> Option<bool>
    requires at_in_bounds { at ≤ length s.now }
    requires n_le_cells_most { n ≤ cells_most }
    ensures rows_told { RowsTold keep (times read_cell n (drop at s.now)) (exit_of n (arrays sheet.new)) sheet.new.bx.now sheet.new.by.now result }
    ensures stays { Stays keep sheet.old.bx.now sheet.old.by.now sheet.new.bx.now sheet.new.by.now }
    ensures same { Same sheet.old sheet.new }
    ensures kept { arrays sheet.new ≡ record (arrays sheet.new) { next = sheet.old.next.now; count = sheet.old.count.now } }
{
    sheet.known();
    let mut used = Used {
        bends: 0,
        cycles: 0,
        steps: 0,
    };
    let mut good = true;
    let mut place = at;
    for i in 0..n {
        let Some((cell, first)) = file_read::head_at(s, place) else {
            return None;
        };
        let shape = cell.shape;
        let Some((q, more)) = load_parts(s, first, shape, sheet.cycles, sheet.steps, used) else {
            return None;
        };
        good = bends_taken(
            s,
            first,
            store::bend_count(shape),
            sheet.bx,
            sheet.by,
            used.bends,
            keep,
            good,
        );
        lent::put_cell(sheet, i, cell);
        used = more;
        place = q;
    }
    if place < s.len() {
        return None;
    }
    Some(good)
}

// What a file begins with: the next id, the number of cells and the place after them, if it does.
#[inline(always)]
fn counts_at(bytes: &[u8]) -> Option<(u32, usize, usize)>
    ensures { CountsRead bytes.now result }
{
    let Some((next, a)) = number::read_number(bytes, 0) else {
        return None;
    };
    let Some((count, b)) = number::read_number(bytes, a) else {
        return None;
    };
    let n = store::wide(count);
    if CELLS_MOST < n {
        return None;
    }
    Some((next, n, b))
}

// The drawing whose file the bytes are, sound or not, whatever the arrays held: its next id, its number of cells and whether the bends that were
// looked at lie in bounds. None where the bytes are not, all of them, a next id and cells that keep the ceilings. Where the bends are not kept,
// their arrays stay.
#[inline(always)]
pub fn load(bytes: &[u8], sheet: &mut SheetMut<'_>, keep: bool) -> Option<(u32, usize, bool)>
    ensures rows_loaded { RowsLoaded keep bytes.now (λ next n xs ys. exit_of n (arrays sheet.new) xs ys next) sheet.new.bx.now sheet.new.by.now result }
    ensures stays { Stays keep sheet.old.bx.now sheet.old.by.now sheet.new.bx.now sheet.new.by.now }
    ensures same { Same sheet.old sheet.new }
    ensures kept { arrays sheet.new ≡ record (arrays sheet.new) { next = sheet.old.next.now; count = sheet.old.count.now } }
{
    let Some((next, n, b)) = counts_at(bytes) else {
        return None;
    };
    let Some(good) = load_cells(bytes, b, n, sheet, keep) else {
        return None;
    };
    Some((next, n, good))
}
