#![tactic(auto)]

ghost use Rattle.std.specs.Prelude.{◌≡◌, true, false, cond, ◌-◌, ◌<◌, ◌≤◌, ltb, get_or, set, replicate};
ghost use Rattle.complex.specs.Sound.{bends_most};
ghost use Rattle.store.specs.View.{Fits};
ghost use Rattle.lent.specs.Arrays.{held_by, normal, Lengths};
ghost use Rattle.kernel_keep.specs.Keeps.{Keeps};
ghost use Rattle.kernel_drop.specs.Gone.{EdgeRow, RowGone, BareRow, PairGone};
ghost use Rattle.kernel_drop.specs.Three.{ThreeRows, ThreeGone};
ghost use Rattle.lent.specs.Sheets.{arrays, Same};

use coordinate::Position;
use lent::SheetMut;

// The row of an edge goes, and its m bends from base on go to the end of the t in use, those from i up to j last.
pub fn drop_row(
    sheet: &mut SheetMut<'_>,
    row: usize,
    base: usize,
    m: usize,
    t: usize,
    i: usize,
    j: usize,
)
    requires fits { Fits (held_by (arrays sheet.old)) }
    requires lengths { Lengths (arrays sheet.old) }
    requires by_value { normal (arrays sheet.old) ≡ true }
    requires edge_row { EdgeRow (arrays sheet.old) row base m t }
    requires i_le_j { i ≤ j }
    requires j_le_m { j ≤ m }
    ensures row_gone { RowGone (arrays sheet.old) row base m t i j (arrays sheet.new) }
    ensures same { Same sheet.old sheet.new }
    ensures kept { arrays sheet.new ≡ record (arrays sheet.new) { next = sheet.old.next.now; cycles = sheet.old.cycles.now; steps = sheet.old.steps.now } }
{
    let u = t - m;
    kernel_bends::rotate(sheet.bx, base, base + m, t);
    kernel_bends::rotate(sheet.by, base, base + m, t);
    kernel_bends::rotate(sheet.bx, u + i, u + j, t);
    kernel_bends::rotate(sheet.by, u + i, u + j, t);
    let dead = rows_gone::dead_row(row);
    kernel_keep::pack_rows(sheet, &dead);
    sheet.known();
}

// The row of a cell that has neither bends nor cycles goes.
pub fn drop_bare(sheet: &mut SheetMut<'_>, row: usize)
    requires fits { Fits (held_by (arrays sheet.old)) }
    requires lengths { Lengths (arrays sheet.old) }
    requires by_value { normal (arrays sheet.old) ≡ true }
    requires row_lt_count { row < sheet.old.count.now }
    requires row_value { get_or sheet.old.bends.now row 0 ≡ 0 }
    requires row_value_2 { get_or sheet.old.counts.now row 0 ≡ 0 }
    ensures keeps { Keeps (set (replicate 256 false) row true) (arrays sheet.old) (arrays sheet.new) }
    ensures lengths_2 { Lengths (arrays sheet.new) }
    ensures same { Same sheet.old sheet.new }
    ensures kept { arrays sheet.new ≡ record (arrays sheet.new) { next = sheet.old.next.now; cycles = sheet.old.cycles.now; steps = sheet.old.steps.now; bx = sheet.old.bx.now; by = sheet.old.by.now } }
{
    let dead = rows_gone::dead_row(row);
    kernel_keep::pack_rows(sheet, &dead);
    sheet.known();
}

// The rows of a cell that has neither bends nor cycles and of an edge go; after the bends of the others, of t in all, come p and
// the m bends of the edge from base on.
pub fn drop_pair(
    sheet: &mut SheetMut<'_>,
    bare: usize,
    row: usize,
    base: usize,
    m: usize,
    t: usize,
    p: Position,
)
    requires fits { Fits (held_by (arrays sheet.old)) }
    requires lengths { Lengths (arrays sheet.old) }
    requires by_value { normal (arrays sheet.old) ≡ true }
    requires bare_row { BareRow (arrays sheet.old) bare }
    requires edge_row { EdgeRow (arrays sheet.old) row base m t }
    requires t_lt_bends_most { t < bends_most }
    ensures pair_gone { PairGone (arrays sheet.old) bare row base m t p (arrays sheet.new) }
    ensures same { Same sheet.old sheet.new }
    ensures kept { arrays sheet.new ≡ record (arrays sheet.new) { next = sheet.old.next.now; cycles = sheet.old.cycles.now; steps = sheet.old.steps.now } }
{
    lent::put_bend(sheet.bx, sheet.by, t, p);
    kernel_bends::rotate(sheet.bx, base, base + m, t + 1);
    kernel_bends::rotate(sheet.by, base, base + m, t + 1);
    let dead = rows_gone::dead_rows(bare, row);
    kernel_keep::pack_rows(sheet, &dead);
    sheet.known();
}

// The flags of three dead rows.
fn three_dead(a: usize, b: usize, c: usize) -> [bool; 256]
    requires a_bound { a < 256 }
    requires b_bound { b < 256 }
    requires c_bound { c < 256 }
    ensures { result ≡ set (set (set (replicate 256 false) a true) b true) c true }
{
    let mut dead = [false; 256];
    dead[a] = true;
    dead[b] = true;
    dead[c] = true;
    dead
}

// Where the bends of a row begin, which stood from base on, when the m of another row have gone to the end.
fn fallen(other: usize, row: usize, base: usize, m: usize) -> usize
    requires { other < row → m ≤ base }
    ensures { result ≡ cond (ltb other row) (base - m) base }
{
    if other < row {
        return base - m;
    }
    base
}

// The rows of two edges and a bare one go, and the edges' bends go to the end of the t in use, those of the first and then those
// of the second.
pub fn drop_three(
    sheet: &mut SheetMut<'_>,
    row1: usize,
    base1: usize,
    m1: usize,
    row2: usize,
    base2: usize,
    m2: usize,
    bare: usize,
    t: usize,
)
    requires fits { Fits (held_by (arrays sheet.old)) }
    requires lengths { Lengths (arrays sheet.old) }
    requires by_value { normal (arrays sheet.old) ≡ true }
    requires three_rows { ThreeRows (arrays sheet.old) row1 base1 m1 row2 base2 m2 bare t }
    ensures three_gone { ThreeGone (arrays sheet.old) row1 base1 m1 row2 base2 m2 bare t (arrays sheet.new) }
    ensures same { Same sheet.old sheet.new }
    ensures kept { arrays sheet.new ≡ record (arrays sheet.new) { next = sheet.old.next.now; cycles = sheet.old.cycles.now; steps = sheet.old.steps.now } }
{
    let b2 = fallen(row1, row2, base2, m1);
    kernel_bends::rotate(sheet.bx, base1, base1 + m1, t);
    kernel_bends::rotate(sheet.by, base1, base1 + m1, t);
    kernel_bends::rotate(sheet.bx, b2, b2 + m2, t);
    kernel_bends::rotate(sheet.by, b2, b2 + m2, t);
    let dead = three_dead(row1, row2, bare);
    kernel_keep::pack_rows(sheet, &dead);
    sheet.known();
}
