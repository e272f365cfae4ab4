#![tactic(auto)]

ghost use Rattle.std.specs.Prelude.{◌≡◌, ◌<◌, length};
ghost use Rattle.complex.specs.Lists.{one, without};
ghost use Rattle.complex.specs.Decode.{uncut};
ghost use Rattle.complex.specs.Sound.{cycles_most, steps_most};
ghost use Rattle.complex.specs.Uncut.{lonely};
ghost use Rattle.rows_spans.specs.Building.{Built};
ghost use Rattle.rows_corners.specs.Faces.{Within, cycles_at};
ghost use Rattle.lent.specs.Replies.{Obeyed, line_says};
ghost use Rattle.kind_uncut_lone.specs.Cases.{CaseIn};
ghost use Rattle.lent.specs.Sheets.{arrays, Same};

use answer::{Question, Totals};
use lent::{Change, SheetMut};
use rows_spans::{Spans, Used};

// The cycles that stand at s, but for cycle c.
fn all_but(
    cycles: &[u32; 512],
    steps: &[u32; 2048],
    s: Spans,
    c: usize,
    numbers: &mut [u32],
    places: &mut [u32],
) -> Used
    requires within { Within cycles.now steps.now s }
    requires c_lt_count { c < s.cycles.count }
    requires numbers_len { length numbers.old ≡ cycles_most }
    requires places_len { length places.old ≡ steps_most }
    ensures { Built (without (one c) 0 (cycles_at cycles.now steps.now s)) numbers.new result places.new }
{
    let mut skip = [false; 512];
    skip[c] = true;
    let k = s.cycles;
    let p = s.steps;
    let none = Used {
        cycles: 0,
        steps: 0,
    };
    kernel_lists::copy_cycles(
        cycles, k.first, k.count, steps, p.first, &skip, numbers, places, none,
    )
}

// 0E at a vertex with no edge end and one lone cycle: the vertex goes, and its face has the other cycles.
pub fn lonely(sheet: &mut SheetMut<'_>, t: Totals, v: u32) -> Result<Change, Question>
    requires { CaseIn (arrays sheet.old) t v lonely }
    ensures obeyed { Obeyed (arrays sheet.old) (uncut v) (arrays sheet.new) (line_says result) }
    ensures same { Same sheet.old sheet.new }
{
    let n = *sheet.count;
    let j = ask_uncut_lone::lone_place(sheet.cycles, t.cycles, sheet.steps, v);
    let h = ask_uncut_lone::row_holding(sheet.counts, n, j);
    let row = h.row;
    let f = sheet.ids[row];
    let s = kernel_cycles::spans_at(sheet.counts, sheet.cycles, row, t);
    let mut numbers = [0u32; 512];
    let mut places = [0u32; 2048];
    let u = all_but(
        sheet.cycles,
        sheet.steps,
        s,
        h.place,
        &mut numbers,
        &mut places,
    );
    let a = store::find(sheet.ids, n, v);
    kernel_reface::reface(sheet, v, a, v, a, f, &numbers, &places, u);
    let removed = (n - *sheet.count) as u32;
    Ok(Change {
        first: 0,
        new: 0,
        removed,
    })
}
