#![tactic(auto)]

ghost use Rattle.std.specs.Prelude.{◌≡◌, length};
ghost use Rattle.bends.specs.Bends.{positions_at};
ghost use Rattle.complex.specs.Decode.{cut_face_open};
ghost use Rattle.decode_parts.specs.Lists.{numbers_read};
ghost use Rattle.lent.specs.Replies.{Ready, Obeyed, line_says};
ghost use Rattle.kind_cut_along.specs.Cuts.{InScript, CutGoes};
ghost use Rattle.lent.specs.Sheets.{arrays, Same};

use answer::{Question, Totals};
use lent::{Change, SheetMut};
use rows_spans::Spans;

// The face f, in a row and with its cycles at `spans`, is cut: its lists are made in `numbers` and `places`, it gets its own, and the
// edge comes; where the corners are of one cycle, the new face comes too.
fn cut_in(
    sheet: &mut SheetMut<'_>,
    t: Totals,
    script: &[u8],
    f: u32,
    row: usize,
    spans: Spans,
    c1: u32,
    s1: u32,
    c2: u32,
    s2: u32,
    k: u32,
    first: usize,
    moved: u32,
    place: usize,
    numbers: &mut [u32],
    places: &mut [u32],
) -> Change
    requires { CutGoes (arrays sheet.old) t script.now f row spans c1 s1 c2 s2 k first moved place (length numbers.old) (length places.old) }
    ensures obeyed { Obeyed (arrays sheet.old) (cut_face_open f c1 s1 c2 s2 (positions_at script.now first k) (numbers_read script.now place moved)) (arrays sheet.new) (line_says (Ok result)) }
    ensures same { Same sheet.old sheet.new }
    ensures kept { arrays sheet.new ≡ record (arrays sheet.new) { px = sheet.old.px.now; py = sheet.old.py.now } }
{
    let n = *sheet.count;
    let id = *sheet.next;
    let g = kind_cut_chord::plan(
        sheet.ids,
        sheet.starts,
        sheet.ends,
        n,
        sheet.cycles,
        sheet.steps,
        spans,
        script,
        moved,
        place,
        c1,
        s1,
        c2,
        s2,
        id,
        numbers,
        places,
    );
    let u = g.old;
    let i = u.cycles;
    let j = u.steps;
    kernel_cycles::replace_cycles(sheet, row, spans, numbers, i, places, j);
    kernel_add::put_bends(script, first, k, sheet.bx, sheet.by, t.bends);
    let line = kernel_add::add_row(sheet, 1, g.v, g.w, k, 0);
    if c1 != c2 {
        return line;
    }
    let y = spans.cycles;
    let z = spans.steps;
    kernel_part::add_part(
        sheet,
        y.first + i + y.rest,
        z.first + j + z.rest,
        &numbers[i..],
        g.new,
        &places[j..],
    );
    Change {
        first: id,
        new: 2,
        removed: 0,
    }
}

// 0C: the face f is cut along an open edge from corner s1 of cycle c1 to corner s2 of cycle c2, with the k bends that the script has
// at `first`; the cycles that it names at `place` go to the new face. The lists get as much room as the cycles of a drawing only where
// little room is not enough.
pub fn cut_face_open(
    sheet: &mut SheetMut<'_>,
    t: Totals,
    script: &[u8],
    f: u32,
    c1: u32,
    s1: u32,
    c2: u32,
    s2: u32,
    k: u32,
    first: usize,
    moved: u32,
    place: usize,
) -> Result<Change, Question>
    requires ready { Ready (arrays sheet.old) t }
    requires in_script { InScript script.now first k moved place }
    ensures obeyed { Obeyed (arrays sheet.old) (cut_face_open f c1 s1 c2 s2 (positions_at script.now first k) (numbers_read script.now place moved)) (arrays sheet.new) (line_says result) }
    ensures same { Same sheet.old sheet.new }
    ensures kept { arrays sheet.new ≡ record (arrays sheet.new) { px = sheet.old.px.now; py = sheet.old.py.now } }
{
    if !bends::bends_within(script, first, k) {
        return Err(Question::Bounds);
    }
    let n = *sheet.count;
    let kind = store::value_at(4, sheet.ids, sheet.kinds, n, f);
    if kind != 3 {
        return Err(Question::Live);
    }
    let row = store::find(sheet.ids, n, f);
    let spans = kernel_cycles::spans_at(sheet.counts, sheet.cycles, row, t);
    if !kind_cut_chord::corners_exist(
        sheet.ids,
        sheet.kinds,
        n,
        sheet.cycles,
        sheet.steps,
        spans,
        script,
        c1,
        s1,
        c2,
        s2,
        moved,
        place,
    ) {
        return Err(Question::Exists);
    }
    ask_cut_along::cut_asked(*sheet.next, t, sheet.cycles, spans, c1, c2, k)?;
    if kind_cut_chord::few(spans) {
        let mut numbers = [0u32; 32];
        let mut places = [0u32; 128];
        return Ok(cut_in(
            sheet,
            t,
            script,
            f,
            row,
            spans,
            c1,
            s1,
            c2,
            s2,
            k,
            first,
            moved,
            place,
            &mut numbers,
            &mut places,
        ));
    }
    let mut numbers = [0u32; 512];
    let mut places = [0u32; 2048];
    Ok(cut_in(
        sheet,
        t,
        script,
        f,
        row,
        spans,
        c1,
        s1,
        c2,
        s2,
        k,
        first,
        moved,
        place,
        &mut numbers,
        &mut places,
    ))
}
