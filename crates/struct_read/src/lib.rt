#![tactic(auto)]

// The drawing of a file, as a struct.
ghost use Rattle.file_read.specs.Outcome.{FileRead};

use file_read::ReadAnswer;
use lent::{SheetBuf, lend};

// The drawing of a file.
pub fn read(bytes: &[u8]) -> ReadAnswer
    ensures { FileRead bytes.now result }
{
    let mut own = SheetBuf::empty();
    let mut sheet = lend!(own);
    let number = call_read::read(&mut sheet, bytes);
    let drawing = door::put_together(&sheet.view());
    ReadAnswer { number, drawing }
}
