#![tactic(auto)]

ghost use Rattle.std.specs.Prelude.{◌≡◌, ◌+◌, ◌*◌, ◌≤◌, length};
ghost use Rattle.number.specs.Numbers.{read_number};
ghost use Rattle.bends.specs.Bends.{positions_at};
ghost use Rattle.complex.specs.Decode.{cut_face_closed};
ghost use Rattle.complex.specs.Cut.{face_cut_round};
ghost use Rattle.store.specs.View.{sheet_of};
ghost use Rattle.decode_parts.specs.Lists.{Stand, numbers_read};
ghost use Rattle.law_cut_face.specs.Rounds.{RoundCut, round_no};
ghost use Rattle.answer.specs.Questions.{no_of};
ghost use Rattle.lent.specs.Arrays.{held_by, rows_by};
ghost use Rattle.lent.specs.Replies.{Ready, Obeyed, Holds, line_says};
ghost use Rattle.kind_cut_round.specs.Asking.{FaceRows, index_with};
ghost use Rattle.lent.specs.Sheets.{arrays, Same};

use answer::{Question, Totals};
use lent::{Change, SheetMut};

// The face's cycles are parted; the edge comes, and the face of those that go.
fn cut_round(
    sheet: &mut SheetMut<'_>,
    t: Totals,
    script: &[u8],
    f: u32,
    k: u32,
    first: usize,
    moved: u32,
    place: usize,
)
    requires ready { Ready (arrays sheet.old) t }
    requires round_cut { RoundCut (held_by (arrays sheet.old)) (rows_by (arrays sheet.old)) script.now f k first moved place }
    ensures next_after { sheet.new.next.now ≡ sheet.old.next.now + 2 }
    ensures count_after { sheet.new.count.now ≡ sheet.old.count.now + 2 }
    ensures holds { Holds (face_cut_round (sheet_of (held_by (arrays sheet.old))) f (positions_at script.now first k) (numbers_read script.now place moved)) (arrays sheet.new) }
    ensures same { Same sheet.old sheet.new }
    ensures kept { arrays sheet.new ≡ record (arrays sheet.new) { px = sheet.old.px.now; py = sheet.old.py.now } }
{
    let row = store::find(sheet.ids, *sheet.count, f);
    let s = kernel_cycles::spans_at(sheet.counts, sheet.cycles, row, t);
    let q = kernel_round::part(
        sheet.cycles,
        sheet.steps,
        s,
        script,
        moved,
        place,
        *sheet.next,
    );
    let u = q.old;
    let v = q.new;
    kernel_round::put_count(sheet.counts, row, u.cycles);
    kernel_add::put_bends(script, first, k, sheet.bx, sheet.by, t.bends);
    kernel_add::add_row(sheet, 2, 0, 0, k, 0);
    kernel_add::add_row(sheet, 3, 0, 0, 0, v.cycles as u32);
}

// Questions 4 and 5: the first no.
fn round_asked(
    ids: &[u32; 256],
    kinds: &[u32; 256],
    counts: &[u32; 256],
    n: usize,
    f: u32,
    k: u32,
    script: &[u8],
    place: usize,
    moved: u32,
) -> Result<(), Question>
    requires face_rows { FaceRows ids.now kinds.now counts.now n }
    requires stand { Stand read_number script.now place moved }
    ensures { no_of result ≡ round_no (index_with ids.now kinds.now counts.now) n f k (numbers_read script.now place moved) }
{
    let kind = store::value_at(4, ids, kinds, n, f);
    if kind != 3 {
        return Err(Question::Live);
    }
    if k == 0 {
        return Err(Question::Exists);
    }
    let c = store::value_at(0, ids, counts, n, f);
    if !script::moved_rise(script, place, moved, c) {
        return Err(Question::Exists);
    }
    Ok(())
}

// 0D: the face f is cut along a closed edge with the k bends that the script has at `first`; the cycles that it names at `place`
// go to the new face.
pub fn cut_face_closed(
    sheet: &mut SheetMut<'_>,
    t: Totals,
    script: &[u8],
    f: u32,
    k: u32,
    first: usize,
    moved: u32,
    place: usize,
) -> Result<Change, Question>
    requires ready { Ready (arrays sheet.old) t }
    requires k_in_bounds { first + 16 * k ≤ length script.now }
    requires stand { Stand read_number script.now place moved }
    ensures obeyed { Obeyed (arrays sheet.old) (cut_face_closed f (positions_at script.now first k) (numbers_read script.now place moved)) (arrays sheet.new) (line_says result) }
    ensures same { Same sheet.old sheet.new }
    ensures kept { arrays sheet.new ≡ record (arrays sheet.new) { px = sheet.old.px.now; py = sheet.old.py.now } }
{
    if !bends::bends_within(script, first, k) {
        return Err(Question::Bounds);
    }
    let id = *sheet.next;
    round_asked(
        sheet.ids,
        sheet.kinds,
        sheet.counts,
        *sheet.count,
        f,
        k,
        script,
        place,
        moved,
    )?;
    let more = Totals {
        cells: 2,
        cycles: 2,
        steps: 2,
        bends: store::wide(k),
    };
    let less = Totals {
        cells: 0,
        cycles: 0,
        steps: 0,
        bends: 0,
    };
    answer::late_asked(id, 2, t, more, less)?;
    cut_round(sheet, t, script, f, k, first, moved, place);
    Ok(Change {
        first: id,
        new: 2,
        removed: 0,
    })
}
