#![tactic(auto)]

ghost use Rattle.std.specs.Prelude.{◌≡◌, ◌+◌, ◌*◌, ◌≤◌, length};
ghost use Rattle.bends.specs.Bends.{positions_at};
ghost use Rattle.complex.specs.Cells.{vertex, open_edge, closed_edge};
ghost use Rattle.complex.specs.Decode.{create};
ghost use Rattle.lent.specs.Replies.{Ready, Obeyed, line_says};
ghost use Rattle.kind_create.specs.Edges.{edge_by, EdgeAsked};
ghost use Rattle.lent.specs.Sheets.{arrays, Same};

use answer::{Question, Totals};
use coordinate::Position;
use lent::{Change, SheetMut};

// 01
pub fn add_vertex(sheet: &mut SheetMut<'_>, t: Totals, p: Position) -> Result<Change, Question>
    requires { Ready (arrays sheet.old) t }
    ensures obeyed { Obeyed (arrays sheet.old) (create (vertex p)) (arrays sheet.new) (line_says result) }
    ensures same { Same sheet.old sheet.new }
    ensures kept { arrays sheet.new ≡ record (arrays sheet.new) { cycles = sheet.old.cycles.now; steps = sheet.old.steps.now; bx = sheet.old.bx.now; by = sheet.old.by.now } }
{
    if !coordinate::in_bounds(p) {
        return Err(Question::Bounds);
    }
    ask_create::cell_asked(*sheet.next, t, 0, 0, 0)?;
    lent::put_position(sheet.px, sheet.py, *sheet.count, p);
    Ok(kernel_add::add_row(sheet, 0, 0, 0, 0, 0))
}

// Questions 7 and 8 of an edge that 3 to 6 let come, and then the k bends that the script has at `first`, and its row.
fn add_edge(
    sheet: &mut SheetMut<'_>,
    t: Totals,
    script: &[u8],
    kind: u32,
    start: u32,
    end: u32,
    k: u32,
    first: usize,
) -> Result<Change, Question>
    requires { EdgeAsked (arrays sheet.old) t script.now kind start end k first }
    ensures obeyed { Obeyed (arrays sheet.old) (create (edge_by kind start end (positions_at script.now first k))) (arrays sheet.new) (line_says result) }
    ensures same { Same sheet.old sheet.new }
    ensures kept { arrays sheet.new ≡ record (arrays sheet.new) { px = sheet.old.px.now; py = sheet.old.py.now; cycles = sheet.old.cycles.now; steps = sheet.old.steps.now } }
{
    ask_create::cell_asked(*sheet.next, t, 0, 0, store::wide(k))?;
    kernel_add::put_bends(script, first, k, sheet.bx, sheet.by, t.bends);
    Ok(kernel_add::add_row(sheet, kind, start, end, k, 0))
}

// 02: from start to end, with the k bends that the script has at `first`.
pub fn add_open(
    sheet: &mut SheetMut<'_>,
    t: Totals,
    script: &[u8],
    start: u32,
    end: u32,
    k: u32,
    first: usize,
) -> Result<Change, Question>
    requires ready { Ready (arrays sheet.old) t }
    requires k_in_bounds { first + 16 * k ≤ length script.now }
    ensures obeyed { Obeyed (arrays sheet.old) (create (open_edge start end (positions_at script.now first k))) (arrays sheet.new) (line_says result) }
    ensures same { Same sheet.old sheet.new }
    ensures kept { arrays sheet.new ≡ record (arrays sheet.new) { px = sheet.old.px.now; py = sheet.old.py.now; cycles = sheet.old.cycles.now; steps = sheet.old.steps.now } }
{
    if !bends::bends_within(script, first, k) {
        return Err(Question::Bounds);
    }
    let n = *sheet.count;
    let a = store::value_at(4, sheet.ids, sheet.kinds, n, start);
    if a != 0 {
        return Err(Question::Live);
    }
    let b = store::value_at(4, sheet.ids, sheet.kinds, n, end);
    if b != 0 {
        return Err(Question::Live);
    }
    add_edge(sheet, t, script, 1, start, end, k, first)
}

// 03: with the k bends that the script has at `first`.
pub fn add_closed(
    sheet: &mut SheetMut<'_>,
    t: Totals,
    script: &[u8],
    k: u32,
    first: usize,
) -> Result<Change, Question>
    requires ready { Ready (arrays sheet.old) t }
    requires k_in_bounds { first + 16 * k ≤ length script.now }
    ensures obeyed { Obeyed (arrays sheet.old) (create (closed_edge (positions_at script.now first k))) (arrays sheet.new) (line_says result) }
    ensures same { Same sheet.old sheet.new }
    ensures kept { arrays sheet.new ≡ record (arrays sheet.new) { px = sheet.old.px.now; py = sheet.old.py.now; cycles = sheet.old.cycles.now; steps = sheet.old.steps.now } }
{
    if !bends::bends_within(script, first, k) {
        return Err(Question::Bounds);
    }
    if k == 0 {
        return Err(Question::Exists);
    }
    add_edge(sheet, t, script, 2, 0, 0, k, first)
}
