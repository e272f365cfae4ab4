#![tactic(auto)]

// The sums of sound arrays.
ghost use Rattle.std.specs.Prelude.{T};
ghost use Rattle.lent.specs.Arrays.{sound_arrays};
ghost use Rattle.lent.specs.Replies.{Ready};
ghost use Rattle.lent.specs.Sheets.{seen};

use answer::Totals;
use lent::SheetRef;

// How many steps and bends they hold.
pub fn sums(view: &SheetRef<'_>) -> Totals
    requires { T (sound_arrays (seen view.now)) }
    ensures { Ready (seen view.now) result }
{
    view.known();
    lent::totals(view.count, view.bends, view.counts, view.cycles)
}
