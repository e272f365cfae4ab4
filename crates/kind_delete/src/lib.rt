#![tactic(auto)]

ghost use Rattle.std.specs.Prelude.{◌≡◌};
ghost use Rattle.complex.specs.Decode.{delete};
ghost use Rattle.lent.specs.Replies.{Ready, Obeyed, line_says};
ghost use Rattle.lent.specs.Sheets.{arrays, Same};

use answer::{Question, Totals};
use lent::{Change, SheetMut};

// 06: the cell goes, and its star.
pub fn delete_cell(sheet: &mut SheetMut<'_>, t: Totals, id: u32) -> Result<Change, Question>
    requires { Ready (arrays sheet.old) t }
    ensures obeyed { Obeyed (arrays sheet.old) (delete id) (arrays sheet.new) (line_says result) }
    ensures same { Same sheet.old sheet.new }
    ensures kept { arrays sheet.new ≡ record (arrays sheet.new) { next = sheet.old.next.now } }
{
    let n = *sheet.count;
    let row = store::find(sheet.ids, n, id);
    if n <= row {
        return Err(Question::Live);
    }
    let mut dead = [false; 256];
    rows_star::mark_star(
        sheet.ids,
        sheet.kinds,
        sheet.starts,
        sheet.ends,
        sheet.counts,
        n,
        sheet.cycles,
        sheet.steps,
        id,
        row,
        &mut dead,
    );
    dead[row] = true;
    kernel_keep::keep_rows(sheet, &dead);
    let removed = (n - *sheet.count) as u32;
    Ok(Change {
        first: 0,
        new: 0,
        removed,
    })
}
