#![tactic(auto)]

ghost use Rattle.std.specs.Prelude.{◌≡◌, true, []};
ghost use Rattle.complex.specs.Cells.{face};
ghost use Rattle.complex.specs.Edits.{neither, replaced, rebuild};
ghost use Rattle.store.specs.View.{sheet_of};
ghost use Rattle.rows_spans.specs.Building.{built};
ghost use Rattle.rows_reface.specs.Needs.{Refaced};
ghost use Rattle.lent.specs.Arrays.{held_by, normal, Lengths};
ghost use Rattle.lent.specs.Replies.{Holds};
ghost use Rattle.lent.specs.Sheets.{arrays, Same};

use lent::SheetMut;
use rows_spans::Used;

// The cells i and j go, whose rows are a and b, and then the face f gets the cycles that two other arrays hold: in the other
// order both could be too many.
pub fn reface(
    sheet: &mut SheetMut<'_>,
    i: u32,
    a: usize,
    j: u32,
    b: usize,
    f: u32,
    numbers: &[u32],
    places: &[u32],
    u: Used,
)
    requires refaced { Refaced (held_by (arrays sheet.old)) i a j b f numbers.now u places.now }
    requires lengths { Lengths (arrays sheet.old) }
    requires by_value { normal (arrays sheet.old) ≡ true }
    ensures holds { Holds (rebuild (neither i j) (replaced f (face (built numbers.now u places.now))) [] (sheet_of (held_by (arrays sheet.old)))) (arrays sheet.new) }
    ensures same { Same sheet.old sheet.new }
    ensures kept { arrays sheet.new ≡ record (arrays sheet.new) { next = sheet.old.next.now } }
{
    let dead = rows_gone::dead_rows(a, b);
    kernel_keep::keep_rows(sheet, &dead);
    sheet.known();
    let row = store::find(sheet.ids, *sheet.count, f);
    let s = rows_spans::spans_of(sheet.counts, *sheet.count, row, sheet.cycles);
    kernel_cycles::replace_cycles(sheet, row, s, numbers, u.cycles, places, u.steps);
}
