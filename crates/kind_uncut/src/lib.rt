#![tactic(auto)]

ghost use Rattle.complex.specs.Decode.{uncut as uncutting};
ghost use Rattle.lent.specs.Replies.{Ready, Obeyed, line_says};
ghost use Rattle.kind_uncut.specs.Found.{AsksIn, CaseFound};
ghost use Rattle.lent.specs.Sheets.{arrays, Same};

use answer::{Question, Totals};
use ask_uncut::Case;
use ask_uncut_ends::AtVertex;
use lent::{Change, SheetMut};

// The case of 0E at the cell i, or the first no of questions 4 and 6; m cycles are in use.
fn case_in(
    count: usize,
    ids: &[u32; 256],
    kinds: &[u32; 256],
    starts: &[u32; 256],
    ends: &[u32; 256],
    counts: &[u32; 256],
    cycles: &[u32; 512],
    m: usize,
    steps: &[u32; 2048],
    i: u32,
) -> Result<Case, Question>
    requires { AsksIn count ids.now kinds.now starts.now ends.now counts.now cycles.now m steps.now }
    ensures { CaseFound count ids.now kinds.now starts.now ends.now counts.now cycles.now m steps.now i result }
{
    let k = store::value_at(4, ids, kinds, count, i);
    if k == 0 {
        let v = ask_uncut_ends::at_vertex(ids, kinds, starts, ends, count, cycles, m, steps, i)?;
        return Ok(Case::Vertex(v));
    }
    if 2 < k {
        return Err(Question::Live);
    }
    let x = ask_uncut_uses::uses_of(ids, counts, count, cycles, steps, i);
    let (b, u, w) = ask_uncut::edge_case(k == 2, x)?;
    Ok(Case::Edge(b, u, w))
}

// 0E
pub fn uncut(sheet: &mut SheetMut<'_>, t: Totals, i: u32) -> Result<Change, Question>
    requires { Ready (arrays sheet.old) t }
    ensures obeyed { Obeyed (arrays sheet.old) (uncutting i) (arrays sheet.new) (line_says result) }
    ensures same { Same sheet.old sheet.new }
{
    match case_in(
        *sheet.count,
        sheet.ids,
        sheet.kinds,
        sheet.starts,
        sheet.ends,
        sheet.counts,
        sheet.cycles,
        t.cycles,
        sheet.steps,
        i,
    )? {
        Case::Vertex(AtVertex::Lonely) => kind_uncut_lone::lonely(sheet, t, i),
        Case::Vertex(AtVertex::Loop(e)) => kind_uncut_loop::looped(sheet, t, i, e),
        Case::Vertex(
            AtVertex::Joint {
                one,
                back1,
                two,
                back2,
            },
        ) => kind_uncut_joint::jointed(sheet, t, i, one, back1, two, back2),
        Case::Edge(b, u, w) => kind_uncut_edge::uncut_edge(sheet, t, i, b, u, w),
    }
}
