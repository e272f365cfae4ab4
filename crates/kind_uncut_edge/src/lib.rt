#![tactic(auto)]

ghost use Rattle.std.specs.Prelude.{◌≡◌, true, ◌-◌, ◌<◌, ◌≤◌, length};
ghost use Rattle.complex.specs.Decode.{uncut};
ghost use Rattle.complex.specs.Uncut.{uncut_case, uncut_result};
ghost use Rattle.complex.specs.Sound.{cells_most};
ghost use Rattle.store.specs.View.{sheet_of};
ghost use Rattle.ask_uncut_uses.specs.Uses.{use_at, case_of};
ghost use Rattle.law_uncut_edge.specs.Needs.{gone_with, more_cycles};
ghost use Rattle.lent.specs.Arrays.{held_by};
ghost use Rattle.lent.specs.Replies.{Ready, Obeyed, Holds, line_says};
ghost use Rattle.kind_uncut_edge.specs.Left.{Leaves, LeavesIn, LeftIn};
ghost use Rattle.lent.specs.Sheets.{arrays, Same};

use answer::{Question, Totals};
use ask_uncut_uses::{Between, Use};
use lent::{Change, SheetMut};
use rows_spans::Used;

// The cycles that are left to the face of u.
fn left(
    count: usize,
    ids: &[u32; 256],
    starts: &[u32; 256],
    ends: &[u32; 256],
    counts: &[u32; 256],
    cycles: &[u32; 512],
    steps: &[u32; 2048],
    t: Totals,
    e: u32,
    k: Between,
    u: Use,
    w: Use,
    numbers: &mut [u32],
    places: &mut [u32],
) -> Used
    requires { LeavesIn count ids.now starts.now ends.now counts.now cycles.now steps.now t e k u w (length numbers.old) (length places.old) }
    ensures { LeftIn count ids.now starts.now ends.now counts.now cycles.now steps.now t e k u w (length numbers.old) (length places.old) numbers.new result places.new }
{
    let p = kernel_places::place_of(count, ids, counts, cycles, t, u.face, u.cycle);
    let v = kernel_places::head_of(count, ids, starts, ends, e, u.back);
    let s = u.step;
    let z = w.step;
    match k {
        Between::TwoFaces => {
            let q = kernel_places::place_of(count, ids, counts, cycles, t, w.face, w.cycle);
            kernel_paths::merged_cycles(cycles, steps, p, s, q, z, v, numbers, places)
        }
        Between::OneCycle => {
            let x = kernel_places::head_of(count, ids, starts, ends, e, w.back);
            kernel_paths::parted_cycles(cycles, steps, p, s, z, v, x, numbers, places)
        }
        Between::Rings => {
            let q = kernel_places::place_of(count, ids, counts, cycles, t, w.face, w.cycle);
            kernel_paths::ringed_cycles(cycles, steps, p, q, numbers, places)
        }
    }
}

// The cell that goes with the edge e: the other face g, or none but e.
fn gone_with(k: Between, e: u32, g: u32) -> u32
    ensures { result ≡ gone_with k e g }
{
    match k {
        Between::TwoFaces => g,
        Between::OneCycle => e,
        Between::Rings => g,
    }
}

// By how many the cycles become more: in one cycle by one.
fn more_cycles(k: Between) -> usize
    ensures { result ≡ more_cycles k }
{
    match k {
        Between::TwoFaces => 0,
        Between::OneCycle => 1,
        Between::Rings => 0,
    }
}

// The edge e goes, with the face of w if that is another, and the face of u has the cycles that are left.
fn take_out(
    sheet: &mut SheetMut<'_>,
    t: Totals,
    e: u32,
    k: Between,
    u: Use,
    w: Use,
    numbers: &mut [u32],
    places: &mut [u32],
)
    requires { Leaves (arrays sheet.old) t e k u w (length numbers.old) (length places.old) }
    ensures holds { Holds (uncut_result (sheet_of (held_by (arrays sheet.old))) e (case_of k (use_at e u) (use_at e w))) (arrays sheet.new) }
    ensures same { Same sheet.old sheet.new }
    ensures kept { arrays sheet.new ≡ record (arrays sheet.new) { next = sheet.old.next.now } }
{
    let l = left(
        *sheet.count,
        sheet.ids,
        sheet.starts,
        sheet.ends,
        sheet.counts,
        sheet.cycles,
        sheet.steps,
        t,
        e,
        k,
        u,
        w,
        numbers,
        places,
    );
    let j = gone_with(k, e, w.face);
    let a = store::find(sheet.ids, *sheet.count, e);
    let b = store::find(sheet.ids, *sheet.count, j);
    kernel_reface::reface(sheet, e, a, j, b, u.face, numbers, places, l)
}

// Whether arrays of 32 counts and 128 steps have room for the cycles of a drawing, and a cycle more.
fn few(t: Totals) -> bool
    ensures { result ≡ true → (t.cycles < 32) × (t.steps ≤ 128) }
{
    t.cycles < 32 && t.steps <= 128
}

// The change by a command that leaves k of n cells.
fn gone(n: usize, k: usize) -> Change
    requires k_le_n { k ≤ n }
    requires n_le_cells_most { n ≤ cells_most }
    ensures { result ≡ record { first = 0; new = 0; removed = n - k } }
{
    let removed = (n - k) as u32;
    Change {
        first: 0,
        new: 0,
        removed,
    }
}

// 0E at the edge e by its two uses. Of the sizes only the number of cycles can grow. The list of cycles gets as little room as may be.
pub fn uncut_edge(
    sheet: &mut SheetMut<'_>,
    t: Totals,
    e: u32,
    k: Between,
    u: Use,
    w: Use,
) -> Result<Change, Question>
    requires ready { Ready (arrays sheet.old) t }
    requires e_value { uncut_case (sheet_of (held_by (arrays sheet.old))) e ≡ case_of k (use_at e u) (use_at e w) }
    ensures obeyed { Obeyed (arrays sheet.old) (uncut e) (arrays sheet.new) (line_says result) }
    ensures same { Same sheet.old sheet.new }
{
    let id = *sheet.next;
    let n = *sheet.count;
    let more = Totals {
        cells: 0,
        cycles: more_cycles(k),
        steps: 0,
        bends: 0,
    };
    let less = Totals {
        cells: 0,
        cycles: 0,
        steps: 0,
        bends: 0,
    };
    answer::late_asked(id, 0, t, more, less)?;
    if few(t) {
        let mut numbers = [0u32; 32];
        let mut places = [0u32; 128];
        take_out(sheet, t, e, k, u, w, &mut numbers, &mut places);
        return Ok(gone(n, *sheet.count));
    }
    let mut numbers = [0u32; 512];
    let mut places = [0u32; 2048];
    take_out(sheet, t, e, k, u, w, &mut numbers, &mut places);
    Ok(gone(n, *sheet.count))
}
