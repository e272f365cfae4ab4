#![tactic(auto)]

ghost use Rattle.std.specs.Prelude.{◌≡◌};
ghost use Rattle.complex.specs.Calls.{star_call};
ghost use Rattle.store.specs.View.{sheet_of};
ghost use Rattle.rows_star.specs.Calls.{star_answered};
ghost use Rattle.lent.specs.Arrays.{held_by};
ghost use Rattle.lent.specs.Replies.{Ready};
ghost use Rattle.lent.specs.Sheets.{seen};

use answer::Totals;
use lent::SheetRef;
use rows_star::Counted;

// The star of a cell: the ids, rising, of the cells whose boundary holds it, in the buffer's first places.
pub fn star(view: &SheetRef<'_>, t: Totals, id: u32, buffer: &mut [u32]) -> Counted
    requires { Ready (seen view.now) t }
    ensures { star_answered result buffer.new ≡ star_call (sheet_of (held_by (seen view.now))) id buffer.old }
{
    rows_star::star_rows(
        view.ids,
        view.kinds,
        view.starts,
        view.ends,
        view.counts,
        view.count,
        view.cycles,
        view.steps,
        id,
        buffer,
    )
}
