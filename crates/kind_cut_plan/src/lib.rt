#![tactic(auto)]

// What is found before an edge is cut: questions 4, 5, 7 and 8 of 0A, and where all stands.
ghost use Rattle.std.specs.Prelude.{◌≡◌, true, false, ◌+◌, ◌-◌, ◌/◌, ◌%◌, ◌<◌, ◌≤◌, take, length};
ghost use Rattle.complex.specs.Sound.{cells_most, steps_most, bends_most, ids_end};
ghost use Rattle.answer.specs.Questions.{no_of};
ghost use Rattle.answer.specs.Sizes.{sized, more_less, changed_by};
ghost use Rattle.answer.specs.Late.{sizes_by, late_no, Small};
ghost use Rattle.store.specs.Index.{Rising, row_of};
ghost use Rattle.store.specs.View.{width_sum};
ghost use Rattle.ask_cut_edge.specs.Cuts.{point_place, open_between, next_bend, closed_between};
ghost use Rattle.lent.specs.Arrays.{position_in};
ghost use Rattle.lent.specs.Replies.{Ready};
ghost use Rattle.kind_cut_plan.specs.Kinds.{new_by, exists_on, uses_on, place_on};
ghost use Rattle.kind_cut_plan.specs.Plans.{Planned};
ghost use Rattle.lent.specs.Sheets.{seen};

use answer::{Question, Totals};
use coordinate::Position;
use lent::SheetRef;

// What is found before an edge is cut: whether the edge falls into two, as an open one does, and where all stands. A closed
// edge has no start s, no end f and no uses that are counted.
#[derive(Clone, Copy)]
pub struct Plan {
    pub two: bool,
    pub row: usize,
    pub base: usize,
    pub m: usize,
    pub s: u32,
    pub f: u32,
    pub cycles: usize,
    pub steps: usize,
    pub bends: usize,
    pub uses: usize,
    pub p: Position,
}

// Where place q of a closed edge lies, whose m bends stand from base on.
fn ring_place(bx: &[f64; 2048], by: &[f64; 2048], base: usize, m: usize, q: usize) -> Position
    requires m_bound { base + m ≤ bends_most }
    requires q_bound { q / 2 < m }
    ensures { result ≡ closed_between (position_in bx.now by.now (base + q / 2)) (position_in bx.now by.now (next_bend base m (q / 2))) q }
{
    let i = q / 2;
    let j = ask_cut_edge::next_bend(base, m, i);
    let b = lent::bend_at(bx, by, base + i);
    let o = lent::bend_at(bx, by, j);
    ask_cut_edge::closed_place(b, o, q)
}

// Where place q of an open edge from s to f lies, whose m bends stand from base on.
fn cut_place(
    view: &SheetRef<'_>,
    n: usize,
    s: u32,
    f: u32,
    base: usize,
    m: usize,
    q: usize,
) -> Position
    requires n_le_cells_most { n ≤ cells_most }
    requires ids_len { length view.now.ids.now ≡ cells_most }
    requires rising { Rising (take n view.now.ids.now) }
    requires ids_bound { row_of s (take n view.now.ids.now) < cells_most }
    requires ids_bound_2 { row_of f (take n view.now.ids.now) < cells_most }
    requires m_bound { base + m ≤ bends_most }
    ensures { result ≡ open_between (position_in view.now.px.now view.now.py.now (row_of s (take n view.now.ids.now))) (position_in view.now.px.now view.now.py.now (row_of f (take n view.now.ids.now))) (position_in view.now.bx.now view.now.by.now (point_place base m (q / 2))) (position_in view.now.bx.now view.now.by.now (point_place base m (q / 2 + 1))) m q }
{
    let i = q / 2;
    let rs = store::find(view.ids, n, s);
    let re = store::find(view.ids, n, f);
    let k1 = ask_cut_edge::point_place(base, m, i);
    let k2 = ask_cut_edge::point_place(base, m, i + 1);
    let a = lent::vertex_at(view.px, view.py, rs);
    let b = lent::vertex_at(view.px, view.py, re);
    let o = lent::bend_at(view.bx, view.by, k1);
    let x = lent::bend_at(view.bx, view.by, k2);
    ask_cut_edge::open_place(a, b, o, x, m, q)
}

// Where place q of an edge lies.
fn place_at(
    two: bool,
    view: &SheetRef<'_>,
    n: usize,
    s: u32,
    f: u32,
    base: usize,
    m: usize,
    q: usize,
) -> Position
    requires n_le_cells_most { n ≤ cells_most }
    requires ids_len { length view.now.ids.now ≡ cells_most }
    requires rising { Rising (take n view.now.ids.now) }
    requires ids_bound { two ≡ true → (row_of s (take n view.now.ids.now) < cells_most) × (row_of f (take n view.now.ids.now) < cells_most) }
    requires m_bound { base + m ≤ bends_most }
    requires q_bound { two ≡ false → q / 2 < m }
    ensures { result ≡ place_on two (take n view.now.ids.now) view.now.px.now view.now.py.now view.now.bx.now view.now.by.now s f base m q }
{
    if two {
        return cut_place(view, n, s, f, base, m, q);
    }
    ring_place(view.bx, view.by, base, m, q)
}

// How many cells come where a cell of a kind is cut at a place; 0 where it is no edge.
fn new_cells(kind: u32) -> usize
    ensures { result ≡ new_by kind }
{
    if kind == 1 {
        return 3;
    }
    if kind == 2 {
        return 2;
    }
    0
}

// Whether an edge of m bends has a place q.
fn place_exists(two: bool, m: usize, q: usize) -> bool
    ensures { result ≡ exists_on two m q }
{
    if two {
        return q / 2 + q % 2 <= m;
    }
    q / 2 < m
}

// How many steps more there are when the edge e is cut: each of its own becomes two where it is open.
fn uses_of(two: bool, cycles: &[u32; 512], n: usize, steps: &[u32; 2048], e: u32) -> usize
    requires n_in_bounds { n ≤ length cycles.now }
    requires cycles_in_bounds { width_sum (take n cycles.now) ≤ length steps.now }
    ensures { result ≡ uses_on two e (take n cycles.now) steps.now }
{
    if two {
        return rows_uses::count_steps(cycles, n, steps, e);
    }
    0
}

// Questions 7 and 8 of an edge that is cut at place q: so many cells come, and there are so many steps more.
fn cut_asked(next: u32, new: usize, t: Totals, uses: usize, q: usize) -> Result<(), Question>
    requires next_le_ids_end { next ≤ ids_end }
    requires some_new { 1 ≤ new }
    requires le_ids_end { new ≤ ids_end }
    requires small { Small t }
    requires uses_bound { uses ≤ steps_most }
    ensures { no_of result ≡ late_no next new (changed_by (sizes_by t) (more_less (sized (new - 1) 0 uses 0) (sized 0 0 0 (q % 2)))) }
{
    let more = Totals {
        cells: new - 1,
        cycles: 0,
        steps: uses,
        bends: 0,
    };
    let less = Totals {
        cells: 0,
        cycles: 0,
        steps: 0,
        bends: q % 2,
    };
    answer::late_asked(next, new, t, more, less)
}

// Questions 4, 5, 7 and 8 of 0A.
pub fn cut_plan(view: &SheetRef<'_>, t: Totals, e: u32, q: usize) -> Result<Plan, Question>
    requires { Ready (seen view.now) t }
    ensures { Planned (seen view.now) e q result }
{
    let kind = store::value_at(4, view.ids, view.kinds, view.count, e);
    let new = new_cells(kind);
    if new == 0 {
        return Err(Question::Live);
    }
    let two = kind == 1;
    let row = store::find(view.ids, view.count, e);
    let bends = view.bends;
    let m = store::wide(bends[row]);
    if !place_exists(two, m, q) {
        return Err(Question::Exists);
    }
    let uses = uses_of(two, view.cycles, t.cycles, view.steps, e);
    cut_asked(view.next, new, t, uses, q)?;
    let base = rows_spans::bend_start(bends, row);
    let s = view.starts[row];
    let f = view.ends[row];
    let p = place_at(two, view, view.count, s, f, base, m, q);
    Ok(Plan {
        two,
        row,
        base,
        m,
        s,
        f,
        cycles: t.cycles,
        steps: t.steps,
        bends: t.bends,
        uses,
        p,
    })
}
