#![tactic(auto)]

ghost use Rattle.std.specs.Prelude.{◌≡◌, ◌&&◌, ◌+◌, ◌<◌, ◌≤◌, ltb, length, drop};
ghost use Rattle.number.specs.Numbers.{read_number};
ghost use Rattle.complex.specs.Sound.{steps_most};
ghost use Rattle.store.specs.View.{width};
ghost use Rattle.rows_spans.specs.Building.{Built};
ghost use Rattle.decode_parts.specs.Lists.{Stand, numbers_read};
ghost use Rattle.rows_corners.specs.Faces.{Within, cycles_at};
ghost use Rattle.rows_split.specs.Along.{old_side, new_side};
ghost use Rattle.rows_split.specs.Parts.{place_of, RoomForBoth};
ghost use Rattle.kind_cut_chord.specs.Chords.{Ruled, vertex_in, corner_by, corners_by, Chorded};

use rows_spans::{Spans, Used};
use rows_split::Place;

// The vertex of corner s of the cycle at p.
fn corner_vertex(
    ids: &[u32; 256],
    starts: &[u32; 256],
    ends: &[u32; 256],
    n: usize,
    steps: &[u32; 2048],
    p: Place,
    s: u32,
) -> u32
    requires ruled { Ruled ids.now starts.now n }
    requires ruled_2 { Ruled ids.now ends.now n }
    requires steps_len { length steps.now ≡ steps_most }
    requires m_bound { p.at + width p.m ≤ steps_most }
    requires s_bound { s < width p.m }
    ensures { result ≡ vertex_in ids.now starts.now ends.now n steps.now p s }
{
    let at = p.at;
    if p.m == 0 {
        return steps[at];
    }
    let i = at + store::wide(s);
    let h = steps[i];
    if h % 2 == 1 {
        return store::value_at(0, ids, ends, n, h / 2);
    }
    store::value_at(0, ids, starts, n, h / 2)
}

// Whether there is a cycle c in the spans, and it has the corner s.
fn corner_on(
    ids: &[u32; 256],
    kinds: &[u32; 256],
    n: usize,
    cycles: &[u32; 512],
    steps: &[u32; 2048],
    spans: Spans,
    c: u32,
    s: u32,
) -> bool
    requires ruled { Ruled ids.now kinds.now n }
    requires within { Within cycles.now steps.now spans }
    ensures { result ≡ corner_by ids.now kinds.now n cycles.now steps.now spans c s }
{
    let k = spans.cycles;
    let i = store::wide(c);
    if k.count <= i {
        return false;
    }
    let j = k.first + i;
    let m = cycles[j];
    if m == 0 {
        return s == 0;
    }
    if m <= s {
        return false;
    }
    let at = rows_corners::cycle_place(cycles, spans, i) + store::wide(s);
    let h = steps[at];
    let kind = store::value_at(4, ids, kinds, n, h / 2);
    kind == 1
}

// Question 5, of a face whose cycles stand at `spans`.
pub fn corners_exist(
    ids: &[u32; 256],
    kinds: &[u32; 256],
    n: usize,
    cycles: &[u32; 512],
    steps: &[u32; 2048],
    spans: Spans,
    script: &[u8],
    c1: u32,
    s1: u32,
    c2: u32,
    s2: u32,
    moved: u32,
    place: usize,
) -> bool
    requires ruled { Ruled ids.now kinds.now n }
    requires within { Within cycles.now steps.now spans }
    requires stand { Stand read_number script.now place moved }
    ensures { result ≡ corners_by ids.now kinds.now n cycles.now steps.now spans c1 s1 c2 s2 (numbers_read script.now place moved) }
{
    if !corner_on(ids, kinds, n, cycles, steps, spans, c1, s1) {
        return false;
    }
    if !corner_on(ids, kinds, n, cycles, steps, spans, c2, s2) {
        return false;
    }
    let k = spans.cycles;
    ask_cut_along::moved_fit(script, place, moved, k.count as u32, c1, c2)
}

// Are there so few cycles and steps that small lists have room for a cycle and two steps more?
pub fn few(spans: Spans) -> bool
    ensures { result ≡ ltb spans.cycles.count 32 && ltb spans.steps.count 127 }
{
    spans.cycles.count < 32 && spans.steps.count < 127
}

// What comes of a cut: an edge from v to w, and lists of cycles that take so much of two arrays, one after the other.
#[derive(Clone, Copy)]
pub struct Chord {
    pub v: u32,
    pub w: u32,
    pub old: Used,
    pub new: Used,
}

// The plan of a cut along the edge e, from corner s1 of cycle c1 to corner s2 of cycle c2 of the spans: the cycles that the face has
// then, and after them those of the new face, which comes where the corners are of one cycle.
pub fn plan(
    ids: &[u32; 256],
    starts: &[u32; 256],
    ends: &[u32; 256],
    n: usize,
    cycles: &[u32; 512],
    steps: &[u32; 2048],
    spans: Spans,
    script: &[u8],
    moved: u32,
    place: usize,
    c1: u32,
    s1: u32,
    c2: u32,
    s2: u32,
    e: u32,
    numbers: &mut [u32],
    places: &mut [u32],
) -> Chord
    requires chorded { Chorded ids.now starts.now ends.now n cycles.now steps.now spans script.now moved place c1 s1 c2 s2 e }
    requires room_for_both { RoomForBoth (length numbers.old) (length places.old) (old_side e c1 s1 c2 s2 (numbers_read script.now place moved) (cycles_at cycles.now steps.now spans)) (new_side e c1 s1 c2 s2 (numbers_read script.now place moved) (cycles_at cycles.now steps.now spans)) }
    ensures v_value { result.v ≡ vertex_in ids.now starts.now ends.now n steps.now (place_of cycles.now spans c1) s1 }
    ensures w_value { result.w ≡ vertex_in ids.now starts.now ends.now n steps.now (place_of cycles.now spans c2) s2 }
    ensures built { Built (old_side e c1 s1 c2 s2 (numbers_read script.now place moved) (cycles_at cycles.now steps.now spans)) numbers.new result.old places.new }
    ensures built_2 { Built (new_side e c1 s1 c2 s2 (numbers_read script.now place moved) (cycles_at cycles.now steps.now spans)) (drop result.old.cycles numbers.new) result.new (drop result.old.steps places.new) }
{
    let p = rows_split::place_of(cycles, spans, c1);
    let v = corner_vertex(ids, starts, ends, n, steps, p, s1);
    if c1 == c2 {
        let w = corner_vertex(ids, starts, ends, n, steps, p, s2);
        let u = kernel_arcs::halves(
            cycles, steps, spans, script, moved, place, c1, p, s1, s2, e, numbers, places,
        );
        let old = u.old;
        let new = u.new;
        return Chord { v, w, old, new };
    }
    let q = rows_split::place_of(cycles, spans, c2);
    let w = corner_vertex(ids, starts, ends, n, steps, q, s2);
    let old = kernel_arcs::bridge_list(
        cycles, steps, spans, c1, p, s1, c2, q, s2, e, numbers, places,
    );
    let new = Used {
        cycles: 0,
        steps: 0,
    };
    Chord { v, w, old, new }
}
