#![tactic(auto)]

ghost use Rattle.std.specs.Prelude.{◌≡◌};
ghost use Rattle.complex.specs.Decode.{glue_vertices, glue_edges};
ghost use Rattle.lent.specs.Replies.{Ready, Obeyed, line_says};
ghost use Rattle.lent.specs.Sheets.{arrays, Same};

use answer::{Question, Totals};
use lent::{Change, SheetMut};

// 07: every use of the vertex b becomes a, and b goes.
pub fn glue_vertices(
    sheet: &mut SheetMut<'_>,
    t: Totals,
    a: u32,
    b: u32,
) -> Result<Change, Question>
    requires { Ready (arrays sheet.old) t }
    ensures obeyed { Obeyed (arrays sheet.old) (glue_vertices a b) (arrays sheet.new) (line_says result) }
    ensures same { Same sheet.old sheet.new }
    ensures kept { arrays sheet.new ≡ record (arrays sheet.new) { next = sheet.old.next.now; cycles = sheet.old.cycles.now; bx = sheet.old.bx.now; by = sheet.old.by.now } }
{
    let n = *sheet.count;
    ask_glue::vertices_asked(sheet.ids, sheet.kinds, n, a, b)?;
    let row = store::find(sheet.ids, n, b);
    kernel_rename::rename_vertex(sheet, t.cycles, a, b);
    kernel_drop::drop_bare(sheet, row);
    let removed = (n - *sheet.count) as u32;
    Ok(Change {
        first: 0,
        new: 0,
        removed,
    })
}

// 08: the steps of the edge b become a's, reversed or not, and b goes with its bends.
pub fn glue_edges(
    sheet: &mut SheetMut<'_>,
    t: Totals,
    a: u32,
    b: u32,
    flag: u32,
) -> Result<Change, Question>
    requires { Ready (arrays sheet.old) t }
    ensures obeyed { Obeyed (arrays sheet.old) (glue_edges a b flag) (arrays sheet.new) (line_says result) }
    ensures same { Same sheet.old sheet.new }
    ensures kept { arrays sheet.new ≡ record (arrays sheet.new) { next = sheet.old.next.now } }
{
    let n = *sheet.count;
    let ka = store::value_at(4, sheet.ids, sheet.kinds, n, a);
    let kb = store::value_at(4, sheet.ids, sheet.kinds, n, b);
    let meet = ask_glue::ends_of(sheet.ids, sheet.starts, sheet.ends, n, a, b, flag);
    ask_glue::edges_asked(ka, kb, a == b, flag, meet)?;
    let row = store::find(sheet.ids, n, b);
    let base = rows_spans::bend_start(sheet.bends, row);
    let m = store::wide(sheet.bends[row]);
    let w = rows_steps::one_for(b, a, flag == 1);
    kernel_swap::swap_steps(sheet, t.cycles, t.steps, 0, w);
    kernel_drop::drop_row(sheet, row, base, m, t.bends, 0, 0);
    let removed = (n - *sheet.count) as u32;
    Ok(Change {
        first: 0,
        new: 0,
        removed,
    })
}
