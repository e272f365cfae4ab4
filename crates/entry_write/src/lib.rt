#![tactic(auto)]

// The file of lent arrays of any contents.
ghost use Rattle.std.specs.Prelude.{◌≡◌};
ghost use Rattle.file_write.specs.Writes.{write_answered as written};
ghost use Rattle.call_asked.specs.Entries.{write_on};
ghost use Rattle.lent.specs.Sheets.{seen};

use file_write::Written;
use lent::SheetRef;

// The drawing's file, in the buffer's first places.
pub fn write(view: &SheetRef<'_>, buffer: &mut [u8]) -> Written
    ensures { written result buffer.new ≡ write_on (seen view.now) buffer.old }
{
    let Some(t) = call_asked::asked(view) else {
        let count: usize = 0;
        return Written { number: 1, count };
    };
    call_write::write(view, t, buffer)
}
