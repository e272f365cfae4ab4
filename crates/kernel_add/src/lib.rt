#![tactic(auto)]

// A row for a new cell, and bends of a script in lent arrays.
ghost use Rattle.std.specs.Prelude.{◌≡◌, ◌+◌, ◌*◌, ◌<◌, ◌≤◌, length, set};
ghost use Rattle.bends.specs.Bends.{positions_at};
ghost use Rattle.complex.specs.Sound.{cells_most, bends_most, ids_end};
ghost use Rattle.lent.specs.Growing.{with_row};
ghost use Rattle.kernel_add.specs.Comes.{issued, BendsPut};
ghost use Rattle.lent.specs.Sheets.{arrays, Same};

use lent::{Change, SheetMut};

// A row after the last, with the next id, for a new cell; and what that does to ids.
pub fn add_row(
    sheet: &mut SheetMut<'_>,
    kind: u32,
    start: u32,
    end: u32,
    bend: u32,
    cycle: u32,
) -> Change
    requires count_lt_cells_most { sheet.old.count.now < cells_most }
    requires next_lt_ids_end { sheet.old.next.now < ids_end }
    ensures value { result ≡ issued sheet.old.next.now }
    ensures added { arrays sheet.new ≡ with_row (arrays sheet.old) kind start end bend cycle sheet.old.px.now sheet.old.py.now }
    ensures same { Same sheet.old sheet.new }
{
    let row = *sheet.count;
    let id = *sheet.next;
    lent::put_row(sheet, row, id, kind, start, end, bend, cycle);
    *sheet.count = row + 1;
    *sheet.next = id + 1;
    Change {
        first: id,
        new: 1,
        removed: 0,
    }
}

// The bends of a script's list go to lent arrays, from a place on.
pub fn put_bends(
    script: &[u8],
    first: usize,
    k: u32,
    bx: &mut [f64; 2048],
    by: &mut [f64; 2048],
    at: usize,
)
    requires k_in_bounds { first + 16 * k ≤ length script.now }
    requires k_bound { at + k ≤ bends_most }
    requires bx_len { length bx.old ≡ bends_most }
    requires by_len { length by.old ≡ bends_most }
    ensures { BendsPut bx.old by.old at (positions_at script.now first k) k bx.new by.new }
{
    let n = store::wide(k);
    for i in 0..n {
        let p = coordinate::position_at(script, first + 16 * i);
        lent::put_bend(bx, by, at + i, p);
    }
}
