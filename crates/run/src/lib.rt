#![tactic(auto)]

// A script from the empty drawing. The drawing is in arrays of the function that begins the run.
ghost use Rattle.std.specs.Prelude.{◌≡◌};
ghost use Rattle.file_write.specs.Writes.{write_answered as written};
ghost use Rattle.call_asked.specs.Entries.{EmptyIn};
ghost use Rattle.run.specs.Runs.{RanOn, RanAll, saved_to};
ghost use Rattle.lent.specs.Sheets.{arrays, Same};

use file_write::Written;
use lent::{SheetBuf, SheetMut, lend};
use store::Drawing;

// The drawing after a script's commands, and how many there were, one that is not read among them.
#[derive(Clone, Copy)]
pub struct Ran {
    pub drawing: Drawing,
    pub commands: usize,
}

// Runs the commands of a script from the empty drawing, each on the arrays as the one before it left them, until no byte is left or
// one is not read: how many there were.
fn run_on(sheet: &mut SheetMut<'_>, script: &[u8]) -> usize
    requires { EmptyIn (arrays sheet.old) }
    ensures ran_on { RanOn (arrays sheet.old) script.now (arrays sheet.new) result }
    ensures same { Same sheet.old sheet.new }
{
    let mut at: usize = 0;
    let mut commands: usize = 0;
    // Not a range: each command says where the next begins.
    while at < script.len() {
        let t = entry_run::step_at(sheet, script, at);
        at = t.end;
        commands = commands + 1;
    }
    commands
}

// Runs the commands of a script, each on the drawing that the one before it gave, until no byte is left or one is not read.
pub fn run(script: &[u8]) -> Ran
    ensures { RanAll script.now result }
{
    let mut own = SheetBuf::empty();
    let mut sheet = lend!(own);
    let commands = run_on(&mut sheet, script);
    let d = door::put_together(&sheet.view());
    Ran {
        drawing: d,
        commands,
    }
}

// The file of the drawing after a script's commands, in the buffer's first places: 0 or 9, and the count of its bytes.
pub fn save(script: &[u8], buffer: &mut [u8]) -> Written
    ensures { written result buffer.new ≡ saved_to script.now buffer.old }
{
    let mut own = SheetBuf::empty();
    let mut sheet = lend!(own);
    run_on(&mut sheet, script);
    call_save::write_sound(&sheet.view(), buffer)
}
