#![tactic(auto)]

// 0A: an open edge becomes two that meet at a new vertex, a closed one a loop at it.
ghost use Rattle.complex.specs.Decode.{cut_edge};
ghost use Rattle.lent.specs.Replies.{Ready, Obeyed, line_says};
ghost use Rattle.lent.specs.Sheets.{arrays, Same};

use answer::{Question, Totals};
use lent::{Change, SheetMut};

// 0A
pub fn cut_edge(sheet: &mut SheetMut<'_>, t: Totals, e: u32, q: u32) -> Result<Change, Question>
    requires { Ready (arrays sheet.old) t }
    ensures obeyed { Obeyed (arrays sheet.old) (cut_edge e q) (arrays sheet.new) (line_says result) }
    ensures same { Same sheet.old sheet.new }
{
    let n = *sheet.count;
    let id = *sheet.next;
    let place = store::wide(q);
    let c = kind_cut_plan::cut_plan(&sheet.view(), t, e, place)?;
    let m = c.m;
    let w = kind_cut_parts::parts_of(c.two, id, e, c.s, m, place);
    kernel_swap::swap_steps(sheet, c.cycles, c.steps, c.uses, w.swap);
    kernel_drop::drop_row(sheet, c.row, c.base, m, c.bends, w.i, w.j);
    let removed = (n - *sheet.count) as u32;
    kind_cut_parts::put_parts(c.two, sheet, c.p, w.start, c.f, w.first, w.second);
    Ok(Change {
        first: id,
        new: w.new,
        removed,
    })
}
