#![tactic(auto)]

// Reads commands from standard input and prints a line per command, then the Euler number and the live cells.
ghost use Rattle.call_asked.specs.Entries.{EmptyIn};
ghost use Rattle.lent.specs.Sheets.{arrays, Same};

use lent::{SheetBuf, SheetMut, lend};

// Prints what a script gives from the empty drawing in arrays, a piece at a time. False: a write failed.
fn print_on(rt: &impl Print, sheet: &mut SheetMut<'_>, script: &[u8]) -> bool
    requires { EmptyIn (arrays sheet.old) }
    ensures same { Same sheet.old sheet.new }
{
    let mut out = [0u8; 65536];
    let mut at: usize = 0;
    loop {
        let p = printing::piece(sheet, script, at, &mut out);
        if !console::give(rt, &out, p.count) {
            return false;
        }
        if p.last {
            return true;
        }
        at = p.at;
    }
}

// Prints what a script gives. False: a write failed.
fn print_all(rt: &impl Print, script: &[u8]) -> bool {
    let mut own = SheetBuf::empty();
    let mut sheet = lend!(own);
    print_on(rt, &mut sheet, script)
}

fn main(rt: HostRuntime) {
    let mut script = printing::script_space();
    let r = console::read_all(&mut rt.reader(), &mut script);
    if r.failed {
        let _ = rt.eprintln("edit: cannot read standard input");
        return;
    }
    if !print_all(&rt, &script[..r.count]) {
        let _ = rt.eprintln("edit: cannot write to standard output");
    }
}
