#![tactic(auto)]

// Read: the drawing of a file's bytes in lent arrays, which a refusal leaves as they were.
ghost use Rattle.call_open.specs.Taken.{ReadIn};
ghost use Rattle.lent.specs.Sheets.{arrays, Same};

use lent::SheetMut;

// The drawing whose file the bytes are goes into the lent arrays, and 0; or 10, and the arrays stay.
pub fn read(sheet: &mut SheetMut<'_>, bytes: &[u8]) -> u32
    ensures read_in { ReadIn bytes.now (arrays sheet.old) (arrays sheet.new) result }
    ensures same { Same sheet.old sheet.new }
{
    if call_open::readable(bytes, sheet.bx, sheet.by) {
        let Some((free, cells, _)) = call_load::load(bytes, sheet, true) else {
            return 10;
        };
        *sheet.next = free;
        *sheet.count = cells;
        return 0;
    }
    10
}
