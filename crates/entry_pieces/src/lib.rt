#![tactic(auto)]

// The number of pieces of lent arrays of any contents.
ghost use Rattle.std.specs.Prelude.{◌≡◌};
ghost use Rattle.rows_pieces.specs.Calls.{pieces_answered};
ghost use Rattle.call_asked.specs.Entries.{pieces_on};
ghost use Rattle.lent.specs.Sheets.{seen};

use lent::SheetRef;
use rows_pieces::PieceCount;

// How many pieces there are.
pub fn pieces(view: &SheetRef<'_>) -> PieceCount
    ensures { pieces_answered result ≡ pieces_on (seen view.now) }
{
    let Some(_) = call_asked::asked(view) else {
        return PieceCount {
            number: 1,
            count: 0,
        };
    };
    let left = call_pieces::pieces(view);
    PieceCount {
        number: 0,
        count: left,
    }
}
