#![tactic(auto)]

ghost use Rattle.std.specs.Prelude.{◌≤◌, T};
ghost use Rattle.complex.specs.Cells.{cell_at, is_vertex};
ghost use Rattle.complex.specs.Decode.{unglue as ungluing};
ghost use Rattle.store.specs.View.{sheet_of};
ghost use Rattle.ask_unglue.specs.Places.{GroupedEnds, Fresh};
ghost use Rattle.lent.specs.Arrays.{held_by, rows_by};
ghost use Rattle.lent.specs.Replies.{Ready, Obeyed, line_says};
ghost use Rattle.kind_unglue_vertex.specs.Parts.{VertexOf, Linkable};
ghost use Rattle.lent.specs.Sheets.{arrays, seen, Same};

use answer::{Question, Totals};
use lent::{Change, SheetMut, SheetRef};
use rows_uses::Use;

// The groups of the marked ends at vertex v, and how many there are; xs and ys have room for the links.
fn link_ends(
    view: &SheetRef<'_>,
    t: Totals,
    v: u32,
    at: &[bool],
    groups: &mut [u32],
    xs: &mut [u32],
    ys: &mut [u32],
) -> u32
    requires ready { Ready (seen view.now) t }
    requires t { T (is_vertex (cell_at (sheet_of (held_by (seen view.now))) v)) }
    requires linkable { Linkable (rows_by (seen view.now)) v view.now.count at.now groups.old t.steps xs.old ys.old }
    ensures grouped_ends { GroupedEnds (held_by (seen view.now)) (rows_by (seen view.now)) v result at.now groups.new }
    ensures upper_bound { result ≤ 512 }
{
    let cycles = view.cycles;
    let steps = view.steps;
    let k = rows_links::find_links(view.ids, view.count, at, cycles, t.cycles, steps, xs, ys);
    rows_groups::find_groups(groups, at, xs, ys, k, view.count * 2)
}

// The groups of the ends at vertex v, and how many there are. Room for the links is made as long as the steps ask for.
fn group_ends(view: &SheetRef<'_>, t: Totals, v: u32, at: &mut [bool], groups: &mut [u32]) -> u32
    requires ready { Ready (seen view.now) t }
    requires t { T (is_vertex (cell_at (sheet_of (held_by (seen view.now))) v)) }
    requires fresh { Fresh at.old groups.old }
    ensures grouped_ends { GroupedEnds (held_by (seen view.now)) (rows_by (seen view.now)) v result at.new groups.new }
    ensures upper_bound { result ≤ 512 }
{
    let kinds = view.kinds;
    let starts = view.starts;
    let ends = view.ends;
    rows_ends::mark_ends(kinds, starts, ends, view.count, v, at);
    if t.steps <= 256 {
        let mut xs = [0u32; 256];
        let mut ys = [0u32; 256];
        return link_ends(view, t, v, at, groups, &mut xs, &mut ys);
    }
    let mut xs = [0u32; 2048];
    let mut ys = [0u32; 2048];
    link_ends(view, t, v, at, groups, &mut xs, &mut ys)
}

// 09, of a vertex by the groups of its ends and its lone cycles: a copy for each of them but the first.
pub fn unglue_vertex(sheet: &mut SheetMut<'_>, t: Totals, v: u32) -> Result<Change, Question>
    requires { VertexOf (arrays sheet.old) t v }
    ensures obeyed { Obeyed (arrays sheet.old) (ungluing v) (arrays sheet.new) (line_says result) }
    ensures same { Same sheet.old sheet.new }
{
    let n = *sheet.count;
    let id = *sheet.next;
    let mut at = [false; 512];
    let mut groups = [0u32; 512];
    let g = group_ends(&sheet.view(), t, v, &mut at, &mut groups);
    let lone = rows_uses::count_uses(Use::Lone, sheet.cycles, t.cycles, sheet.steps, v);
    let k = store::wide(g);
    let parts = k + lone;
    if parts < 2 {
        return Err(Question::Rule);
    }
    let more = parts - 1;
    ask_unglue::copies_asked(id, t, 0, more)?;
    let row = store::find(sheet.ids, n, v);
    rows_ends::new_ends(0, &at, &groups, n, v, id, sheet.starts);
    rows_ends::new_ends(1, &at, &groups, n, v, id, sheet.ends);
    kernel_copies::copy_uses(Use::Lone, sheet, t.cycles, v, k);
    kernel_copies::put_copies(sheet, t.bends, row, more);
    let new = more as u32;
    Ok(Change {
        first: id,
        new,
        removed: 0,
    })
}
