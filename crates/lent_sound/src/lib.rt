#![tactic(auto)]

ghost use Rattle.std.specs.Prelude.{◌≡◌, true, false, cond, ◌&&◌, ◌-◌, ◌≤◌};
ghost use Rattle.number.specs.Said.{done, no};
ghost use Rattle.complex.specs.Sound.{bends_most};
ghost use Rattle.complex.specs.Visits.{bounds_right};
ghost use Rattle.sound.specs.Rows.{all_from};
ghost use Rattle.lent.specs.Arrays.{totals_of, Lengths};
ghost use Rattle.lent_sound.specs.Walk.{bend_right, walk_right, walk_visits, walk_says, visit_says, visit_count};
ghost use Rattle.lent.specs.Sheets.{seen};

use answer::Totals;
use coordinate::Position;
use lent::SheetRef;

const CELLS_MOST: usize = 256;

const IDS_END: u32 = 65536;

// Whether both hold.
fn both(a: bool, b: bool) -> bool
    ensures { result ≡ a && b }
{
    if a {
        return b;
    }
    false
}

// Whether the bends from one place to another lie in bounds. All are looked at, which is faster than to leave at the first that does not.
fn bends_right(bx: &[f64; 2048], by: &[f64; 2048], from: usize, to: usize) -> bool
    requires { to ≤ bends_most }
    ensures { result ≡ all_from (bend_right bx.now by.now) from (to - from) }
{
    let mut good = true;
    for i in from..to {
        let p = Position { x: bx[i], y: by[i] };
        good = both(good, coordinate::in_bounds(p));
    }
    good
}

// Whether these bends lie in bounds, where they are looked at.
fn bends_asked(look: bool, bx: &[f64; 2048], by: &[f64; 2048], from: usize, to: usize) -> bool
    requires { to ≤ bends_most }
    ensures { result ≡ cond look (all_from (bend_right bx.now by.now) from (to - from)) true }
{
    if look {
        return bends_right(bx, by, from, to);
    }
    true
}

// Whether the next id and the number of cells are in bounds.
fn bounds_right(next: u32, count: usize) -> bool
    ensures { result ≡ bounds_right next count }
{
    if next == 0 {
        return false;
    }
    if IDS_END < next {
        return false;
    }
    count <= CELLS_MOST
}

// Question 1 of any contents of the arrays: the cells one after another as they stand, each row, and the places of its bends where they are
// looked at, up to the first fault: the sums of all cells, or the count of cells visited. The table is filled anew, whatever it held.
pub fn visit(view: &SheetRef<'_>, table: &mut [u8; 1024], look: bool) -> Result<Totals, usize>
    ensures result_value { visit_says result ≡ cond (walk_right look (seen view.now)) (done (totals_of (seen view.now))) (no 1) }
    ensures result_value_2 { visit_count result ≡ walk_visits look (seen view.now) }
    ensures lengths { Lengths (seen view.now) }
{
    view.known();
    if !bounds_right(view.next, view.count) {
        return Err(0);
    }
    lent_table::fill(table, view.ids, view.count);
    let mut t = Totals {
        cells: 0,
        cycles: 0,
        steps: 0,
        bends: 0,
    };
    for i in 0..view.count {
        let Some(u) = lent_row::row_right(view, t, table, i) else {
            return Err(i + 1);
        };
        if !bends_asked(look, view.bx, view.by, t.bends, u.bends) {
            return Err(u.cells);
        }
        t = u;
    }
    Ok(t)
}

// Question 1 of any contents of the arrays: their sums, or none at a fault.
pub fn walk(view: &SheetRef<'_>, table: &mut [u8; 1024], look: bool) -> Option<Totals>
    ensures result_value { walk_says result ≡ cond (walk_right look (seen view.now)) (done (totals_of (seen view.now))) (no 1) }
    ensures lengths { Lengths (seen view.now) }
{
    let Ok(t) = visit(view, table, look) else {
        return None;
    };
    Some(t)
}
