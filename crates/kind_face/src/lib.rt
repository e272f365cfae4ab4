#![tactic(auto)]

ghost use Rattle.std.specs.Prelude.{◌≡◌};
ghost use Rattle.complex.specs.Cells.{face};
ghost use Rattle.complex.specs.Decode.{create, read_cycle};
ghost use Rattle.decode_parts.specs.Lists.{cycles_read, Stand};
ghost use Rattle.lent.specs.Replies.{Ready, Obeyed, line_says};
ghost use Rattle.lent.specs.Sheets.{arrays, Same};

use answer::{Question, Totals};
use lent::{Change, SheetMut};

// 04: with the k cycles that the script has at `first`.
pub fn add_face(
    sheet: &mut SheetMut<'_>,
    t: Totals,
    script: &[u8],
    k: u32,
    first: usize,
) -> Result<Change, Question>
    requires ready { Ready (arrays sheet.old) t }
    requires stand { Stand read_cycle script.now first k }
    ensures obeyed { Obeyed (arrays sheet.old) (create (face (cycles_read script.now first k))) (arrays sheet.new) (line_says result) }
    ensures same { Same sheet.old sheet.new }
    ensures kept { arrays sheet.new ≡ record (arrays sheet.new) { px = sheet.old.px.now; py = sheet.old.py.now; bx = sheet.old.bx.now; by = sheet.old.by.now } }
{
    ask_face::face_asked(
        script,
        first,
        k,
        sheet.ids,
        sheet.kinds,
        sheet.starts,
        sheet.ends,
        *sheet.count,
    )?;
    let m = script::count_cycle_steps(script, first, k, 2048);
    ask_create::cell_asked(*sheet.next, t, store::wide(k), m, 0)?;
    script::put_cycles(
        script,
        first,
        k,
        sheet.cycles,
        t.cycles,
        sheet.steps,
        t.steps,
    );
    Ok(kernel_add::add_row(sheet, 3, 0, 0, 0, k))
}
