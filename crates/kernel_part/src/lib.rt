#![tactic(auto)]

ghost use Rattle.std.specs.Prelude.{◌≡◌, ◌+◌};
ghost use Rattle.complex.specs.Cells.{face};
ghost use Rattle.store.specs.View.{sheet_of};
ghost use Rattle.store.specs.Edits.{appended};
ghost use Rattle.rows_spans.specs.Building.{built};
ghost use Rattle.lent.specs.Arrays.{held_by};
ghost use Rattle.lent.specs.Replies.{Holds};
ghost use Rattle.kernel_part.specs.Rounds.{PartRoom};
ghost use Rattle.lent.specs.Sheets.{arrays, Same};

use lent::SheetMut;
use rows_spans::Used;

// A face comes, with the cycles of a list: c cycles and s steps are in use.
pub fn add_part(
    sheet: &mut SheetMut<'_>,
    c: usize,
    s: usize,
    numbers: &[u32],
    u: Used,
    places: &[u32],
)
    requires { PartRoom (arrays sheet.old) c s numbers.now u places.now }
    ensures next_after { sheet.new.next.now ≡ sheet.old.next.now + 1 }
    ensures count_after { sheet.new.count.now ≡ sheet.old.count.now + 1 }
    ensures holds { Holds (appended (sheet_of (held_by (arrays sheet.old))) (face (built numbers.now u places.now))) (arrays sheet.new) }
    ensures same { Same sheet.old sheet.new }
    ensures kept { arrays sheet.new ≡ record (arrays sheet.new) { px = sheet.old.px.now; py = sheet.old.py.now; bx = sheet.old.bx.now; by = sheet.old.by.now } }
{
    rows_spans::copy_run(numbers, 0, u.cycles, sheet.cycles, c);
    rows_spans::copy_run(places, 0, u.steps, sheet.steps, s);
    kernel_add::add_row(sheet, 3, 0, 0, 0, u.cycles as u32);
}
