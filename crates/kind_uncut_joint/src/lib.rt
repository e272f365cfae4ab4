#![tactic(auto)]

ghost use Rattle.std.specs.Prelude.{◌≡◌, true, false, cond, ◌+◌, ◌-◌, ◌<◌, ◌≤◌, take, length};
ghost use Rattle.complex.specs.Lists.{total};
ghost use Rattle.complex.specs.Sound.{cells_most, bends_most};
ghost use Rattle.complex.specs.Uncut.{joint, uncut_case};
ghost use Rattle.complex.specs.Decode.{uncut};
ghost use Rattle.store.specs.Index.{Rising, row_of};
ghost use Rattle.store.specs.View.{sheet_of};
ghost use Rattle.store.specs.Edits.{places_of};
ghost use Rattle.lent.specs.Arrays.{held_by};
ghost use Rattle.lent.specs.Replies.{Ready, Obeyed, line_says};
ghost use Rattle.kind_uncut_joint.specs.Joining.{side_from, order_of, Merges, MergedIn, turned_if, joined_runs, Joins, Joined};
ghost use Rattle.lent.specs.Sheets.{arrays, Same};

use answer::{Question, Totals};
use ask_uncut_vertex::Side;
use coordinate::Position;
use lent::{Change, SheetMut};

// The edge e, leaving a vertex backward or not.
fn side_at(
    ids: &[u32; 256],
    n: usize,
    starts: &[u32; 256],
    ends: &[u32; 256],
    bends: &[u32; 256],
    e: u32,
    back: bool,
) -> Side
    requires n_le_cells_most { n ≤ cells_most }
    requires ids_len { length ids.now ≡ cells_most }
    requires rising { Rising (take n ids.now) }
    requires ids_bound { row_of e (take n ids.now) < cells_most }
    requires bends_bound { total (places_of 0) (take (row_of e (take n ids.now)) bends.now) ≤ bends_most }
    requires bends_len { length bends.now ≡ cells_most }
    ensures { result ≡ side_from (row_of e (take n ids.now)) starts.now ends.now bends.now back }
{
    let row = store::find(ids, n, e);
    let far = ask_uncut_vertex::either(back, starts[row], ends[row]);
    let first = rows_spans::bend_start(bends, row);
    let m = store::wide(bends[row]);
    Side {
        row,
        far,
        first,
        count: m,
    }
}

// Two edges in the order of their bends, each with whether it is turned round.
#[derive(Clone, Copy)]
pub struct Order {
    pub first: Side,
    pub turned: bool,
    pub second: Side,
    pub turned2: bool,
}

// The order of the bends of the edge that x and y become, directed as x; both leave the vertex.
fn order_of(x: Side, back1: bool, y: Side, back2: bool) -> Order
    ensures { result ≡ order_of x back1 y back2 }
{
    if back1 {
        return Order {
            first: x,
            turned: false,
            second: y,
            turned2: back2,
        };
    }
    Order {
        first: y,
        turned: !back2,
        second: x,
        turned2: false,
    }
}

// The steps of x become those of the next cell, and those of y go; k cycles and m steps are in use.
fn merge_steps(sheet: &mut SheetMut<'_>, k: usize, m: usize, x: u32, y: u32)
    requires { Merges (arrays sheet.old) k m x y }
    ensures merged_in { MergedIn (arrays sheet.old) x y (arrays sheet.new) }
    ensures same { Same sheet.old sheet.new }
    ensures kept { arrays sheet.new ≡ record (arrays sheet.old) { cycles = sheet.new.cycles.now; steps = sheet.new.steps.now } }
{
    let one = rows_steps::one_for(x, *sheet.next, false);
    kernel_swap::swap_steps(sheet, k, m, 0, one);
    let none = rows_steps::none_for(y);
    kernel_swap::swap_steps(sheet, k, m, 0, none);
}

// The numbers from one place up to another, turned round or not.
fn turn_run(l: &mut [f64; 2048], turned: bool, from: usize, to: usize)
    requires from_le_to { from ≤ to }
    requires to_le_bends_most { to ≤ bends_most }
    ensures { l.new ≡ turned_if turned from to l.old }
{
    if turned {
        kernel_bends::reverse(l, from, to);
    }
}

// Of the first t numbers the last m2 move one place on for v; these and the m1 before v are turned round or not.
fn join_runs(l: &mut [f64; 2048], t: usize, m1: usize, b1: bool, m2: usize, b2: bool, v: f64)
    requires m2_bound { m1 + m2 ≤ t }
    requires t_lt_bends_most { t < bends_most }
    ensures { l.new ≡ joined_runs t m1 b1 m2 b2 v l.old }
{
    l[t] = v;
    let u = t - m2;
    kernel_bends::rotate(l, u, t, t + 1);
    turn_run(l, b1, u - m1, u);
    turn_run(l, b2, u + 1, t + 1);
}

// The vertex at p in the row bare and the two edges go, and the edge of both comes; t bends are in use.
fn join(sheet: &mut SheetMut<'_>, o: Order, bare: usize, t: usize, p: Position) -> Change
    requires { Joins (arrays sheet.old) o bare t p }
    ensures joined { Joined (arrays sheet.old) o bare p (arrays sheet.new) (line_says (Ok result)) }
    ensures same { Same sheet.old sheet.new }
    ensures kept { arrays sheet.new ≡ record (arrays sheet.new) { cycles = sheet.old.cycles.now; steps = sheet.old.steps.now } }
{
    let n = *sheet.count;
    let id = *sheet.next;
    let a = o.first;
    let b = o.second;
    let m1 = a.count;
    let m2 = b.count;
    kernel_drop::drop_three(sheet, a.row, a.first, m1, b.row, b.first, m2, bare, t);
    let k = *sheet.count;
    join_runs(sheet.bx, t, m1, o.turned, m2, o.turned2, p.x);
    join_runs(sheet.by, t, m1, o.turned, m2, o.turned2, p.y);
    let m = (m1 + 1 + m2) as u32;
    lent::put_row(sheet, k, id, 1, a.far, b.far, m, 0);
    *sheet.count = k + 1;
    *sheet.next = id + 1;
    let removed = (n - k) as u32;
    Change {
        first: id,
        new: 1,
        removed,
    }
}

// 0E at a vertex with one end each of the edges x and y, which leave it.
pub fn jointed(
    sheet: &mut SheetMut<'_>,
    t: Totals,
    v: u32,
    x: u32,
    back1: bool,
    y: u32,
    back2: bool,
) -> Result<Change, Question>
    requires ready { Ready (arrays sheet.old) t }
    requires v_value { uncut_case (sheet_of (held_by (arrays sheet.old))) v ≡ joint (record { edge = x; backward = back1 }) (record { edge = y; backward = back2 }) }
    ensures obeyed { Obeyed (arrays sheet.old) (uncut v) (arrays sheet.new) (line_says result) }
    ensures same { Same sheet.old sheet.new }
{
    ask_uncut_vertex::bend_asked(*sheet.next, t, 2)?;
    let row = store::find(sheet.ids, *sheet.count, v);
    let p = lent::vertex_at(sheet.px, sheet.py, row);
    let s = side_at(
        sheet.ids,
        *sheet.count,
        sheet.starts,
        sheet.ends,
        sheet.bends,
        x,
        back1,
    );
    let u = side_at(
        sheet.ids,
        *sheet.count,
        sheet.starts,
        sheet.ends,
        sheet.bends,
        y,
        back2,
    );
    let o = order_of(s, back1, u, back2);
    merge_steps(sheet, t.cycles, t.steps, x, y);
    Ok(join(sheet, o, row, t.bends, p))
}
