#![tactic(auto)]

ghost use Rattle.std.specs.Prelude.{◌≡◌, true, ◌+◌, ◌≤◌, take, length};
ghost use Rattle.complex.specs.Sound.{cells_most};
ghost use Rattle.store.specs.View.{Fits};
ghost use Rattle.store.specs.Edits.{Compacted, kept};
ghost use Rattle.lent.specs.Arrays.{held_by, normal, Lengths};
ghost use Rattle.rows_slide.specs.Slid.{Slid};
ghost use Rattle.kernel_keep.specs.Keeps.{Keeps};
ghost use Rattle.lent.specs.Sheets.{arrays, Same};

use lent::SheetMut;

// n rows go to an earlier place.
fn slide_rows(sheet: &mut SheetMut<'_>, from: usize, n: usize, to: usize)
    requires to_le_from { to ≤ from }
    requires n_bound { from + n ≤ cells_most }
    ensures slid { (Slid sheet.old.ids.now from n to sheet.new.ids.now) × (Slid sheet.old.kinds.now from n to sheet.new.kinds.now) × (Slid sheet.old.starts.now from n to sheet.new.starts.now) × (Slid sheet.old.ends.now from n to sheet.new.ends.now) × (Slid sheet.old.bends.now from n to sheet.new.bends.now) × (Slid sheet.old.counts.now from n to sheet.new.counts.now) × (Slid sheet.old.px.now from n to sheet.new.px.now) × (Slid sheet.old.py.now from n to sheet.new.py.now) }
    ensures same { Same sheet.old sheet.new }
    ensures kept { arrays sheet.new ≡ record (arrays sheet.new) { next = sheet.old.next.now; count = sheet.old.count.now; cycles = sheet.old.cycles.now; steps = sheet.old.steps.now; bx = sheet.old.bx.now; by = sheet.old.by.now } }
{
    rows_slide::slide(sheet.ids, from, n, to);
    rows_slide::slide(sheet.kinds, from, n, to);
    rows_slide::slide(sheet.starts, from, n, to);
    rows_slide::slide(sheet.ends, from, n, to);
    rows_slide::slide(sheet.bends, from, n, to);
    rows_slide::slide(sheet.counts, from, n, to);
    rows_slide::slide(sheet.px, from, n, to);
    rows_slide::slide(sheet.py, from, n, to);
}

// The rows that are not dead are moved to the front.
pub fn pack_rows(sheet: &mut SheetMut<'_>, dead: &[bool])
    requires n_le_cells_most { sheet.old.count.now ≤ cells_most }
    requires n_in_bounds { sheet.old.count.now ≤ length dead.now }
    requires ids_len { (length sheet.old.ids.now ≡ cells_most) × (length sheet.old.kinds.now ≡ cells_most) × (length sheet.old.starts.now ≡ cells_most) × (length sheet.old.ends.now ≡ cells_most) × (length sheet.old.bends.now ≡ cells_most) × (length sheet.old.counts.now ≡ cells_most) × (length sheet.old.px.now ≡ cells_most) × (length sheet.old.py.now ≡ cells_most) }
    ensures value { sheet.new.count.now ≡ length (kept (take sheet.old.count.now dead.now) (take sheet.old.count.now sheet.old.py.now)) }
    ensures compacted { Compacted (take sheet.old.count.now dead.now) (take sheet.old.count.now sheet.old.ids.now) sheet.new.ids.now }
    ensures compacted_2 { Compacted (take sheet.old.count.now dead.now) (take sheet.old.count.now sheet.old.kinds.now) sheet.new.kinds.now }
    ensures compacted_3 { Compacted (take sheet.old.count.now dead.now) (take sheet.old.count.now sheet.old.starts.now) sheet.new.starts.now }
    ensures compacted_4 { Compacted (take sheet.old.count.now dead.now) (take sheet.old.count.now sheet.old.ends.now) sheet.new.ends.now }
    ensures compacted_5 { Compacted (take sheet.old.count.now dead.now) (take sheet.old.count.now sheet.old.bends.now) sheet.new.bends.now }
    ensures compacted_6 { Compacted (take sheet.old.count.now dead.now) (take sheet.old.count.now sheet.old.counts.now) sheet.new.counts.now }
    ensures compacted_7 { Compacted (take sheet.old.count.now dead.now) (take sheet.old.count.now sheet.old.px.now) sheet.new.px.now }
    ensures compacted_8 { Compacted (take sheet.old.count.now dead.now) (take sheet.old.count.now sheet.old.py.now) sheet.new.py.now }
    ensures same { Same sheet.old sheet.new }
    ensures kept { arrays sheet.new ≡ record (arrays sheet.new) { next = sheet.old.next.now; cycles = sheet.old.cycles.now; steps = sheet.old.steps.now; bx = sheet.old.bx.now; by = sheet.old.by.now } }
{
    let n = *sheet.count;
    let mut i: usize = 0;
    let mut k: usize = 0;
    // Not a range: how far a stretch goes is only seen at its start.
    while i < n {
        let j = rows_slide::dead_until(dead, i, n);
        let e = rows_slide::living_until(dead, j, n);
        let m = e - j;
        slide_rows(sheet, j, m, k);
        k = k + m;
        i = e;
    }
    *sheet.count = k;
}

// The rows that are not dead, and their bends, cycles and steps, are moved to the front.
pub fn keep_rows(sheet: &mut SheetMut<'_>, dead: &[bool; 256])
    requires fits { Fits (held_by (arrays sheet.old)) }
    requires lengths { Lengths (arrays sheet.old) }
    requires by_value { normal (arrays sheet.old) ≡ true }
    requires dead_len { length dead.now ≡ cells_most }
    ensures keeps { Keeps dead.now (arrays sheet.old) (arrays sheet.new) }
    ensures same { Same sheet.old sheet.new }
    ensures kept { arrays sheet.new ≡ record (arrays sheet.new) { next = sheet.old.next.now } }
{
    rows_slide::drop_cycles(dead, sheet.counts, *sheet.count, sheet.cycles, sheet.steps);
    rows_slide::drop_bends(dead, sheet.bends, *sheet.count, sheet.bx, sheet.by);
    pack_rows(sheet, dead);
    sheet.known();
}
