#![tactic(auto)]

ghost use Rattle.std.specs.Prelude.{◌≡◌};
ghost use Rattle.complex.specs.Decode.{move};
ghost use Rattle.lent.specs.Replies.{Ready, Obeyed, line_says};
ghost use Rattle.lent.specs.Sheets.{arrays, Same};

use answer::{Question, Totals};
use coordinate::Position;
use lent::{Change, SheetMut};

// 05: the vertex v moves to p.
pub fn move_vertex(
    sheet: &mut SheetMut<'_>,
    t: Totals,
    v: u32,
    p: Position,
) -> Result<Change, Question>
    requires { Ready (arrays sheet.old) t }
    ensures obeyed { Obeyed (arrays sheet.old) (move v p) (arrays sheet.new) (line_says result) }
    ensures same { Same sheet.old sheet.new }
    ensures kept { arrays sheet.new ≡ record (arrays sheet.old) { px = sheet.new.px.now; py = sheet.new.py.now } }
{
    if !coordinate::in_bounds(p) {
        return Err(Question::Bounds);
    }
    let kind = store::value_at(4, sheet.ids, sheet.kinds, *sheet.count, v);
    if kind != 0 {
        return Err(Question::Live);
    }
    let row = store::find(sheet.ids, *sheet.count, v);
    lent::put_position(sheet.px, sheet.py, row, p);
    Ok(Change {
        first: 0,
        new: 0,
        removed: 0,
    })
}
