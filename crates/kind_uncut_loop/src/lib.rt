#![tactic(auto)]

ghost use Rattle.std.specs.Prelude.{◌≡◌};
ghost use Rattle.complex.specs.Decode.{uncut};
ghost use Rattle.complex.specs.Uncut.{loop, uncut_case};
ghost use Rattle.store.specs.View.{sheet_of};
ghost use Rattle.lent.specs.Arrays.{held_by};
ghost use Rattle.lent.specs.Replies.{Ready, Obeyed, line_says};
ghost use Rattle.lent.specs.Sheets.{arrays, Same};

use answer::{Question, Totals};
use lent::{Change, SheetMut};

// 0E at a vertex with both ends of the edge e: the vertex becomes the first bend of a closed edge, e's bends follow it, and e's
// halfedges become those of the new edge.
pub fn looped(sheet: &mut SheetMut<'_>, t: Totals, v: u32, e: u32) -> Result<Change, Question>
    requires ready { Ready (arrays sheet.old) t }
    requires v_value { uncut_case (sheet_of (held_by (arrays sheet.old))) v ≡ loop e }
    ensures obeyed { Obeyed (arrays sheet.old) (uncut v) (arrays sheet.new) (line_says result) }
    ensures same { Same sheet.old sheet.new }
{
    let n = *sheet.count;
    let id = *sheet.next;
    ask_uncut_vertex::bend_asked(id, t, 1)?;
    let vertex = store::find(sheet.ids, n, v);
    let row = store::find(sheet.ids, n, e);
    let p = lent::vertex_at(sheet.px, sheet.py, vertex);
    let base = rows_spans::bend_start(sheet.bends, row);
    let m = store::wide(sheet.bends[row]);
    let w = rows_steps::one_for(e, id, false);
    kernel_swap::swap_steps(sheet, t.cycles, t.steps, 0, w);
    kernel_drop::drop_pair(sheet, vertex, row, base, m, t.bends, p);
    let k = *sheet.count;
    lent::put_row(sheet, k, id, 2, 0, 0, (m + 1) as u32, 0);
    *sheet.count = k + 1;
    *sheet.next = id + 1;
    let removed = (n - k) as u32;
    Ok(Change {
        first: id,
        new: 1,
        removed,
    })
}
