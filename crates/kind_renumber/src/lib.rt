#![tactic(auto)]

ghost use Rattle.std.specs.Prelude.{◌≡◌};
ghost use Rattle.lent.specs.Replies.{Ready, Renewed, line_says};
ghost use Rattle.lent.specs.Sheets.{arrays, Same};

use answer::{Question, Totals};
use lent::{Change, SheetMut};

// 0F: the cells get the ids 1 to count, and the next id is count + 1.
pub fn renumber(sheet: &mut SheetMut<'_>, t: Totals) -> Result<Change, Question>
    requires { Ready (arrays sheet.old) t }
    ensures renewed { Renewed (arrays sheet.old) (arrays sheet.new) (line_says result) }
    ensures same { Same sheet.old sheet.new }
    ensures kept { arrays sheet.new ≡ record (arrays sheet.old) { next = sheet.new.next.now; ids = sheet.new.ids.now; starts = sheet.new.starts.now; ends = sheet.new.ends.now; steps = sheet.new.steps.now } }
{
    kernel_renumber::renumber(sheet, t.cycles);
    Ok(Change {
        first: 0,
        new: 0,
        removed: 0,
    })
}
