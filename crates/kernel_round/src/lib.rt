#![tactic(auto)]

// A face's cycles parted in the drawing's own arrays, for 0D.
ghost use Rattle.std.specs.Prelude.{◌≡◌, ◌++◌, ◌∷◌, ◌+◌, ◌*◌, ◌<◌, ◌≤◌, length, take, drop, set};
ghost use Rattle.complex.specs.Lists.{one};
ghost use Rattle.complex.specs.Cells.{path};
ghost use Rattle.complex.specs.Sound.{ids_end, cells_most, cycles_most};
ghost use Rattle.store.specs.View.{halfedge_of};
ghost use Rattle.store.specs.Edits.{kept};
ghost use Rattle.decode_parts.specs.Lists.{numbers_read};
ghost use Rattle.rows_corners.specs.Faces.{Within, cycles_at};
ghost use Rattle.law_cut_face.specs.Rounds.{stayed, left};
ghost use Rattle.kernel_round.specs.Parting.{Fit, Flagged, TwoBuilt, RoundParting, Put, RoundParted};

use rows_spans::{Span, Spans, Used};

// How much of two arrays the two lists of a cut take, one after the other.
#[derive(Clone, Copy)]
pub struct Parts {
    pub old: Used,
    pub new: Used,
}

// The cycles at s that do not go, and then e; after them e backward, and then those that do not stay.
fn round_list(
    cycles: &[u32; 512],
    steps: &[u32; 2048],
    s: Spans,
    goes: &[bool; 512],
    stays: &[bool; 512],
    e: u32,
    counts: &mut [u32],
    places: &mut [u32],
) -> Parts
    requires flagged { Flagged cycles.now s goes.now stays.now }
    requires within { Within cycles.now steps.now s }
    requires e_le_ids_end { e ≤ ids_end }
    requires fit { Fit s (length counts.old) (length places.old) }
    ensures two_built { TwoBuilt (kept (take s.cycles.count goes.now) (cycles_at cycles.now steps.now s) ++ one (path (one (halfedge_of (2 * e))))) (path (one (halfedge_of (2 * e + 1))) ∷ kept (take s.cycles.count stays.now) (cycles_at cycles.now steps.now s)) counts.new result.old result.new places.new }
    ensures cycles_after { result.old.cycles + result.new.cycles ≡ s.cycles.count + 2 }
    ensures steps_after { result.old.steps + result.new.steps ≡ s.steps.count + 2 }
{
    let c = s.cycles;
    let p = s.steps;
    let none = Used {
        cycles: 0,
        steps: 0,
    };
    let a = kernel_lists::copy_cycles(
        cycles, c.first, c.count, steps, p.first, goes, counts, places, none,
    );
    rows_spans::put_step(places, a.steps, 2 * e);
    let u = rows_spans::close_path(counts, a, 1);
    rows_spans::put_step(places, u.steps, 2 * e + 1);
    let b = rows_spans::close_path(counts, u, 1);
    let w = kernel_lists::copy_cycles(
        cycles, c.first, c.count, steps, p.first, stays, counts, places, b,
    );
    Parts {
        old: u,
        new: Used {
            cycles: w.cycles - u.cycles,
            steps: w.steps - u.steps,
        },
    }
}

// The first n numbers of a list for the run s, and the next m after the numbers in use.
fn put(l: &mut [u32], s: Span, new: &[u32], n: usize, m: usize)
    requires rest_in_bounds { s.first + s.count + s.rest ≤ length l.old }
    requires m_in_bounds { n + m ≤ length new.now }
    requires m_in_bounds_2 { s.first + n + s.rest + m ≤ length l.old }
    ensures { Put l.old s new.now n (drop n new.now) m l.new }
{
    kernel_cycles::splice(l, s, new, n);
    rows_spans::copy_run(new, n, m, l, s.first + n + s.rest);
}

// The cycles at s are parted: those that stay, and then e; after the last cycle, e backward, and then those that go. Both are first
// put together in counts and places.
fn part_in(
    cycles: &mut [u32; 512],
    steps: &mut [u32; 2048],
    s: Spans,
    script: &[u8],
    moved: u32,
    place: usize,
    e: u32,
    counts: &mut [u32],
    places: &mut [u32],
) -> Parts
    requires round_parting { RoundParting cycles.old steps.old s script.now moved place e }
    requires fit { Fit s (length counts.old) (length places.old) }
    ensures { RoundParted cycles.old steps.old s (stayed (numbers_read script.now place moved) (cycles_at cycles.old steps.old s) e) (left (numbers_read script.now place moved) (cycles_at cycles.old steps.old s) e) result.old result.new cycles.new steps.new }
{
    let mut goes = [false; 512];
    script::mark_moved(script, place, moved, &mut goes);
    let mut stays = [false; 512];
    rows_corners::others(&goes, &mut stays);
    let q = round_list(cycles, steps, s, &goes, &stays, e, counts, places);
    let u = q.old;
    let v = q.new;
    put(cycles, s.cycles, counts, u.cycles, v.cycles);
    put(steps, s.steps, places, u.steps, v.steps);
    q
}

// The cycles at s are parted; where none goes, nothing is put together aside, and for few steps small lists are enough.
pub fn part(
    cycles: &mut [u32; 512],
    steps: &mut [u32; 2048],
    s: Spans,
    script: &[u8],
    moved: u32,
    place: usize,
    e: u32,
) -> Parts
    requires { RoundParting cycles.old steps.old s script.now moved place e }
    ensures { RoundParted cycles.old steps.old s (stayed (numbers_read script.now place moved) (cycles_at cycles.old steps.old s) e) (left (numbers_read script.now place moved) (cycles_at cycles.old steps.old s) e) result.old result.new cycles.new steps.new }
{
    if moved == 0 {
        let c = s.cycles;
        let p = s.steps;
        let ones = [1u32; 2];
        let after = Span {
            first: c.first + c.count,
            count: 0,
            rest: c.rest,
        };
        put(cycles, after, &ones, 1, 1);
        let there = 2 * e;
        let back = there + 1;
        let both = [there, back];
        let behind = Span {
            first: p.first + p.count,
            count: 0,
            rest: p.rest,
        };
        put(steps, behind, &both, 1, 1);
        return Parts {
            old: Used {
                cycles: c.count + 1,
                steps: p.count + 1,
            },
            new: Used {
                cycles: 1,
                steps: 1,
            },
        };
    }
    if s.steps.count < 63 {
        let mut few = [0u32; 64];
        let mut short = [0u32; 64];
        return part_in(
            cycles, steps, s, script, moved, place, e, &mut few, &mut short,
        );
    }
    let mut counts = [0u32; 512];
    let mut places = [0u32; 2048];
    part_in(
        cycles,
        steps,
        s,
        script,
        moved,
        place,
        e,
        &mut counts,
        &mut places,
    )
}

// A row has n cycles.
pub fn put_count(counts: &mut [u32; 256], row: usize, n: usize)
    requires row_lt_cells_most { row < cells_most }
    requires n_le_cycles_most { n ≤ cycles_most }
    ensures { counts.new ≡ set counts.old row n }
{
    counts[row] = n as u32;
}
