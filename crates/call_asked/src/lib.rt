#![tactic(auto)]

// Where the calls on lent arrays begin: the empty drawing, and question 1 of any contents.
ghost use Rattle.call_asked.specs.Entries.{Begun, Asked};
ghost use Rattle.lent.specs.Sheets.{seen};

use answer::Totals;
use lent::SheetRef;

// The empty drawing: next id 1 and no cell. What the arrays hold is not asked.
pub fn begin(next: &mut u32, count: &mut usize)
    ensures { Begun next.new count.new }
{
    *next = 1;
    *count = 0;
}

// Question 1: the sums that the other calls need, or none on a no.
pub fn asked(view: &SheetRef<'_>) -> Option<Totals>
    ensures { Asked (seen view.now) result }
{
    let mut table = [0u8; 1024];
    lent_sound::walk(view, &mut table, true)
}
