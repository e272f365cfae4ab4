#![tactic(auto)]

// The command at the front of a script, on lent arrays of any contents.
ghost use Rattle.entry_command.specs.Commands.{CommandedIn};
ghost use Rattle.lent.specs.Sheets.{arrays, Same};

use lent::{Line, SheetMut};

// The number of the first no, or 0; the new and the removed. On a no the arrays are as they were.
pub fn command(sheet: &mut SheetMut<'_>, script: &[u8]) -> Line
    ensures commanded_in { CommandedIn (arrays sheet.old) script.now (arrays sheet.new) result }
    ensures same { Same sheet.old sheet.new }
{
    let Some(t) = call_asked::asked(&sheet.view()) else {
        return lent::line_of(1);
    };
    let Some((c, _)) = decode::decode(script) else {
        return lent::line_of(2);
    };
    let done = entry_dispatch::obey(sheet, t, script, c);
    let line = lent::line_from(done);
    line
}
