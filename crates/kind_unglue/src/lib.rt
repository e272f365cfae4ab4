#![tactic(auto)]

ghost use Rattle.std.specs.Prelude.{◌≡◌, cond, eqb};
ghost use Rattle.complex.specs.Decode.{unglue as ungluing};
ghost use Rattle.rows_uses.specs.declared.Use.TheVariants.{Step, Ring};
ghost use Rattle.lent.specs.Replies.{Ready, Obeyed, line_says};
ghost use Rattle.lent.specs.Sheets.{arrays, Same};

use answer::{Question, Totals};
use lent::{Change, SheetMut};
use rows_uses::Use;

// What is copied with an edge of kind k: its steps, or its cycles if it is closed.
fn uses_of(k: u32) -> Use
    ensures { result ≡ cond (eqb k 1) Step Ring }
{
    if k == 1 {
        return Use::Step;
    }
    Use::Ring
}

// 09: a vertex by the groups of its ends; of an edge a copy for each use but the first.
pub fn unglue(sheet: &mut SheetMut<'_>, t: Totals, i: u32) -> Result<Change, Question>
    requires { Ready (arrays sheet.old) t }
    ensures obeyed { Obeyed (arrays sheet.old) (ungluing i) (arrays sheet.new) (line_says result) }
    ensures same { Same sheet.old sheet.new }
{
    let n = *sheet.count;
    let k = store::value_at(4, sheet.ids, sheet.kinds, n, i);
    if k == 0 {
        return kind_unglue_vertex::unglue_vertex(sheet, t, i);
    }
    if 2 < k {
        return Err(Question::Live);
    }
    let u = uses_of(k);
    let m = t.cycles;
    let parts = rows_uses::count_uses(u, sheet.cycles, m, sheet.steps, i);
    if parts < 2 {
        return Err(Question::Rule);
    }
    let more = parts - 1;
    let row = store::find(sheet.ids, n, i);
    let b = store::wide(sheet.bends[row]);
    let id = *sheet.next;
    ask_unglue::copies_asked(id, t, b, more)?;
    kernel_copies::copy_uses(u, sheet, m, i, 0);
    kernel_copies::put_copies(sheet, t.bends, row, more);
    let new = more as u32;
    Ok(Change {
        first: id,
        new,
        removed: 0,
    })
}
