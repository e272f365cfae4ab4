#![tactic(auto)]

// The file of sound arrays, in a lent buffer.
ghost use Rattle.std.specs.Prelude.{◌≡◌};
ghost use Rattle.complex.specs.Calls.{write_call};
ghost use Rattle.store.specs.View.{sheet_of};
ghost use Rattle.file_write.specs.Writes.{write_answered};
ghost use Rattle.lent.specs.Arrays.{held_by};
ghost use Rattle.lent.specs.Replies.{Ready};
ghost use Rattle.lent.specs.Sheets.{seen};

use answer::Totals;
use file_write::Written;
use lent::SheetRef;

// Writes the file into the first places of the buffer. Number 9: the buffer is too short; else 0.
// The count is of the places that the file needs.
pub fn write(view: &SheetRef<'_>, t: Totals, buffer: &mut [u8]) -> Written
    requires { Ready (seen view.now) t }
    ensures { write_answered result buffer.new ≡ write_call (sheet_of (held_by (seen view.now))) buffer.old }
{
    let length = call_cells::file_length(view, t);
    if buffer.len() < length {
        return Written {
            number: 9,
            count: length,
        };
    }
    let at = file_parts::put_two(view.next, view.count as u32, buffer, 0);
    let end = call_cells::put_cells(view, view.count, buffer, at);
    Written {
        number: 0,
        count: end,
    }
}
