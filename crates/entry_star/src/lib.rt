#![tactic(auto)]

// The star of a cell, of lent arrays of any contents.
ghost use Rattle.std.specs.Prelude.{◌≡◌};
ghost use Rattle.rows_star.specs.Calls.{star_answered as queried};
ghost use Rattle.call_asked.specs.Entries.{star_on};
ghost use Rattle.lent.specs.Sheets.{seen};

use lent::SheetRef;
use rows_star::Counted;

// The ids, rising, of the cells whose boundary holds the cell, in the buffer's first places.
pub fn star(view: &SheetRef<'_>, id: u32, buffer: &mut [u32]) -> Counted
    ensures { queried result buffer.new ≡ star_on (seen view.now) id buffer.old }
{
    let Some(t) = call_asked::asked(view) else {
        let count: usize = 0;
        return Counted { number: 1, count };
    };
    call_star::star(view, t, id, buffer)
}
