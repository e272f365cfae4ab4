#![tactic(auto)]

ghost use Rattle.std.specs.Prelude.{◌≡◌, ◌++◌, ◌∷◌, [], ◌+◌};
ghost use Rattle.complex.specs.Lists.{one};
ghost use Rattle.complex.specs.Cells.{lone, vertex, cell_at};
ghost use Rattle.complex.specs.Cells as cells;
ghost use Rattle.complex.specs.Decode.{cut_face_vertex};
ghost use Rattle.complex.specs.Cut.{face_cut_at};
ghost use Rattle.store.specs.View.{sheet_of};
ghost use Rattle.lent.specs.Arrays.{held_by};
ghost use Rattle.lent.specs.Replies.{Ready, Obeyed, Holds, line_says};
ghost use Rattle.kernel_add.specs.Comes.{issued};
ghost use Rattle.kind_cut_face.specs.Cuts.{FaceCuts};
ghost use Rattle.lent.specs.Sheets.{arrays, Same};

use answer::{Question, Totals};
use coordinate::Position;
use lent::{Change, SheetMut};

// ---- 0B

// The face gets a lone vertex more, and the vertex comes.
fn cut_at(sheet: &mut SheetMut<'_>, t: Totals, f: u32, p: Position) -> Change
    requires { FaceCuts (arrays sheet.old) t f (cells.cycles_of (cell_at (sheet_of (held_by (arrays sheet.old))) f) ++ one (lone (sheet_of (held_by (arrays sheet.old))).next)) (vertex p ∷ []) }
    ensures value { result ≡ issued sheet.old.next.now }
    ensures next_after { sheet.new.next.now ≡ sheet.old.next.now + 1 }
    ensures count_after { sheet.new.count.now ≡ sheet.old.count.now + 1 }
    ensures holds { Holds (face_cut_at (sheet_of (held_by (arrays sheet.old))) f p) (arrays sheet.new) }
    ensures same { Same sheet.old sheet.new }
    ensures kept { arrays sheet.new ≡ record (arrays sheet.new) { bx = sheet.old.bx.now; by = sheet.old.by.now } }
{
    let n = *sheet.count;
    let id = *sheet.next;
    let vertex = id;
    let row = store::find(sheet.ids, n, f);
    let s = kernel_cycles::spans_at(sheet.counts, sheet.cycles, row, t);
    kernel_cycles::add_cycle(sheet, row, s, 0, vertex);
    lent::put_position(sheet.px, sheet.py, n, p);
    kernel_add::add_row(sheet, 0, 0, 0, 0, 0)
}

// 0B: the face f is cut at a vertex at p.
pub fn cut_face_vertex(
    sheet: &mut SheetMut<'_>,
    t: Totals,
    f: u32,
    p: Position,
) -> Result<Change, Question>
    requires { Ready (arrays sheet.old) t }
    ensures obeyed { Obeyed (arrays sheet.old) (cut_face_vertex f p) (arrays sheet.new) (line_says result) }
    ensures same { Same sheet.old sheet.new }
    ensures kept { arrays sheet.new ≡ record (arrays sheet.new) { bx = sheet.old.bx.now; by = sheet.old.by.now } }
{
    if !coordinate::in_bounds(p) {
        return Err(Question::Bounds);
    }
    let kind = store::value_at(4, sheet.ids, sheet.kinds, *sheet.count, f);
    if kind != 3 {
        return Err(Question::Live);
    }
    ask_create::cell_asked(*sheet.next, t, 1, 1, 0)?;
    Ok(cut_at(sheet, t, f, p))
}
