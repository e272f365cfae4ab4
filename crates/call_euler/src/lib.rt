#![tactic(auto)]

// The Euler number of sound arrays.
ghost use Rattle.std.specs.Prelude.{◌≡◌, T};
ghost use Rattle.complex.specs.Euler.{euler};
ghost use Rattle.store.specs.View.{sheet_of};
ghost use Rattle.lent.specs.Arrays.{held_by, sound_arrays};
ghost use Rattle.lent.specs.Sheets.{seen};

use lent::SheetRef;

// The Euler number: vertices minus open edges plus 2 - k for each face of k cycles.
pub fn euler(view: &SheetRef<'_>) -> i32
    requires { T (sound_arrays (seen view.now)) }
    ensures { result ≡ euler (sheet_of (held_by (seen view.now))).cells }
{
    view.known();
    rows_euler::euler_rows(view.kinds, view.counts, view.count)
}
