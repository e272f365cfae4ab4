#![tactic(auto)]

// A script on the drawing of a file, in arrays of the call's own. A no gives its number, 0 for all else, and leaves the lent buffers as
// they were.
ghost use Rattle.std.specs.Prelude.{◌≡◌};
ghost use Rattle.entry_file_run.specs.Runs.{run_as, run_at};

use lent::{SheetBuf, lend};

// Runs a script on the drawing of a file. Of each command five numbers go to the lines: number, first, new, removed and
// the length of the rest; the file of the drawing at the end goes to the first places of out.
pub fn run(
    file: &[u8],
    script: &[u8],
    lines: &mut [u32],
    out: &mut [u8],
    commands: &mut u32,
    bytes: &mut u32,
) -> u32
    ensures { run_as result lines.new out.new commands.new bytes.new ≡ run_at file.now script.now lines.old out.old }
{
    *commands = 0;
    *bytes = 0;
    let mut own = SheetBuf::empty();
    let mut sheet = lend!(own);
    let Some(_) = call_open::open(&mut sheet, file) else {
        return 10;
    };
    let no = entry_room::room_no(script.len(), lines.len(), out.len());
    if no != 0 {
        return no;
    }
    let done = entry_run::run_lines(&mut sheet, script, lines);
    let w = call_save::write_sound(&sheet.view(), out);
    *commands = done as u32;
    *bytes = w.count as u32;
    0
}
