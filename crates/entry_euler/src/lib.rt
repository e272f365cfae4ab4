#![tactic(auto)]

// The Euler number of lent arrays of any contents.
ghost use Rattle.std.specs.Prelude.{◌≡◌};
ghost use Rattle.rows_euler.specs.Calls.{euler_answered};
ghost use Rattle.call_asked.specs.Entries.{euler_on};
ghost use Rattle.lent.specs.Sheets.{seen};

use lent::SheetRef;
use rows_euler::EulerNumber;

// The Euler number.
pub fn euler(view: &SheetRef<'_>) -> EulerNumber
    ensures { euler_answered result ≡ euler_on (seen view.now) }
{
    let Some(_) = call_asked::asked(view) else {
        let value: i32 = 0;
        return EulerNumber { number: 1, value };
    };
    let value = call_euler::euler(view);
    EulerNumber { number: 0, value }
}
