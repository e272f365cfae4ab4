#![tactic(auto)]

ghost use Rattle.std.specs.Prelude.{◌≡◌, ◌+◌, ◌<◌, ◌≤◌, take, drop, length, map, ◌||◌};
ghost use Rattle.complex.specs.Lists.{any};
ghost use Rattle.complex.specs.Sound.{cells_most, cycles_most, steps_most};
ghost use Rattle.store.specs.Index.{Rising};
ghost use Rattle.store.specs.View.{halfedge_of, width, width_sum, cycle_of, cycles_from};
ghost use Rattle.rows_marks.specs.Marks.{ends_there, edge_marks, mark_at, step_marked, cycle_marked, face_marks, Sought, Pooled};

// Whether a cell is an open edge with an end at id.
fn ends_at(kind: u32, start: u32, end: u32, id: u32) -> bool
    ensures { result ≡ ends_there id kind start end }
{
    if kind == 1 {
        if id == start {
            return true;
        }
        return id == end;
    }
    false
}

// Marks the rows of the open edges with an end at id.
pub fn edges_at(
    kinds: &[u32; 256],
    starts: &[u32; 256],
    ends: &[u32; 256],
    n: usize,
    id: u32,
    marks: &mut [bool; 256],
)
    requires n_bound { n ≤ 256 }
    requires kinds_len { length kinds.now ≡ 256 }
    requires starts_len { length starts.now ≡ 256 }
    requires ends_len { length ends.now ≡ 256 }
    requires marks_len { length marks.old ≡ 256 }
    ensures marks_after { take n marks.new ≡ edge_marks id (take n kinds.now) (take n starts.now) (take n ends.now) }
    ensures marks_len_2 { length marks.new ≡ 256 }
{
    for i in 0..n {
        marks[i] = ends_at(kinds[i], starts[i], ends[i], id);
    }
}

// A flag in the place of every marked id: most steps are of an id without one, and need no search for a row.
fn flag_ids(ids: &[u32; 256], marks: &[bool; 256], n: usize, flags: &mut [bool; 256])
    requires n_le_cells_most { n ≤ cells_most }
    requires ids_len { length ids.now ≡ cells_most }
    requires marks_len { length marks.now ≡ cells_most }
    requires flags_len { length flags.old ≡ cells_most }
    requires rising { Rising (take n ids.now) }
    ensures { Sought ids.now marks.now n flags.new }
{
    for i in 0..n {
        if marks[i] {
            let at = store::wide(ids[i] % 256);
            flags[at] = true;
        }
    }
}

// The mark in the row of an edge, or false if no row has it.
fn mark_at(ids: &[u32; 256], marks: &[bool; 256], n: usize, edge: u32) -> bool
    requires n_bound { n ≤ 256 }
    requires ids_len { length ids.now ≡ 256 }
    requires marks_len { length marks.now ≡ 256 }
    requires rising { Rising (take n ids.now) }
    ensures { result ≡ mark_at (take n ids.now) (take n marks.now) edge }
{
    let row = store::find(ids, n, edge);
    if row < n {
        return marks[row];
    }
    false
}

// Whether a step's edge is marked.
fn step_marked(
    ids: &[u32; 256],
    marks: &[bool; 256],
    n: usize,
    flags: &[bool; 256],
    step: u32,
) -> bool
    requires { Sought ids.now marks.now n flags.now }
    ensures { result ≡ step_marked (take n ids.now) (take n marks.now) (halfedge_of step) }
{
    let edge = step / 2;
    let at = store::wide(edge % 256);
    if flags[at] {
        return mark_at(ids, marks, n, edge);
    }
    false
}

// Whether one of m steps, from a place on, is of a marked edge.
fn path_marked(
    ids: &[u32; 256],
    marks: &[bool; 256],
    n: usize,
    flags: &[bool; 256],
    steps: &[u32; 2048],
    from: usize,
    m: usize,
) -> bool
    requires sought { Sought ids.now marks.now n flags.now }
    requires steps_len { length steps.now ≡ steps_most }
    requires m_bound { from + m ≤ steps_most }
    ensures { result ≡ any (step_marked (take n ids.now) (take n marks.now)) (map halfedge_of (take m (drop from steps.now))) }
{
    for i in 0..m {
        let s = steps[from + i];
        if step_marked(ids, marks, n, flags, s) {
            return true;
        }
    }
    false
}

// A mark, or whether the cycle of c steps at a place is the lone vertex v or has a step of a marked edge.
fn cycle_marked(
    mark: bool,
    ids: &[u32; 256],
    marks: &[bool; 256],
    n: usize,
    flags: &[bool; 256],
    steps: &[u32; 2048],
    from: usize,
    c: u32,
    v: u32,
) -> bool
    requires sought { Sought ids.now marks.now n flags.now }
    requires steps_len { length steps.now ≡ steps_most }
    requires c_bound { from + width c ≤ steps_most }
    ensures { result ≡ (mark || cycle_marked (take n ids.now) (take n marks.now) v (cycle_of c (drop from steps.now))) }
{
    if mark {
        return true;
    }
    if c == 0 {
        let w = steps[from];
        return v == w;
    }
    path_marked(ids, marks, n, flags, steps, from, store::wide(c))
}

// A face's mark, and the place after its steps.
#[derive(Clone, Copy)]
struct Walk {
    marked: bool,
    next: usize,
}

// A mark, or whether one of k cycles is marked, from the first of them and its place on.
fn face_marked(
    mark: bool,
    ids: &[u32; 256],
    marks: &[bool; 256],
    n: usize,
    flags: &[bool; 256],
    cycles: &[u32; 512],
    first: usize,
    k: usize,
    steps: &[u32; 2048],
    from: usize,
    v: u32,
) -> Walk
    requires sought { Sought ids.now marks.now n flags.now }
    requires cycles_len { length cycles.now ≡ cycles_most }
    requires k_bound { first + k ≤ cycles_most }
    requires steps_len { length steps.now ≡ steps_most }
    requires cycles_bound { from + width_sum (take k (drop first cycles.now)) ≤ steps_most }
    ensures marked_value { result.marked ≡ (mark || any (cycle_marked (take n ids.now) (take n marks.now) v) (cycles_from (take k (drop first cycles.now)) (drop from steps.now))) }
    ensures next_value { result.next ≡ from + width_sum (take k (drop first cycles.now)) }
{
    let mut marked = mark;
    let mut next = from;
    for j in 0..k {
        let c = cycles[first + j];
        marked = cycle_marked(marked, ids, marks, n, flags, steps, next, c, v);
        next = next + store::places(1, c);
    }
    Walk { marked, next }
}

// Marks the rows of the faces, with the flags of the marked ids.
fn mark_faces(
    ids: &[u32; 256],
    marks: &[bool; 256],
    n: usize,
    flags: &[bool; 256],
    counts: &[u32; 256],
    cycles: &[u32; 512],
    steps: &[u32; 2048],
    v: u32,
    out: &mut [bool; 256],
)
    requires sought { Sought ids.now marks.now n flags.now }
    requires pooled { Pooled counts.now n cycles.now steps.now }
    requires out_len { length out.old ≡ cells_most }
    ensures out_after { take n out.new ≡ face_marks (cycle_marked (take n ids.now) (take n marks.now) v) (take n out.old) (take n counts.now) cycles.now steps.now }
    ensures out_len_2 { length out.new ≡ cells_most }
{
    let mut first: usize = 0;
    let mut from: usize = 0;
    for i in 0..n {
        let c = counts[i];
        if c != 0 {
            let k = store::wide(c);
            let w = face_marked(
                out[i], ids, marks, n, flags, cycles, first, k, steps, from, v,
            );
            out[i] = w.marked;
            from = w.next;
            first = first + k;
        }
    }
}

// Marks, beside what is marked in out, the rows of the faces with a step of a marked edge or a lone cycle of the vertex v.
pub fn faces_at(
    ids: &[u32; 256],
    marks: &[bool; 256],
    n: usize,
    counts: &[u32; 256],
    cycles: &[u32; 512],
    steps: &[u32; 2048],
    v: u32,
    out: &mut [bool; 256],
)
    requires ids_len { length ids.now ≡ cells_most }
    requires rising { Rising (take n ids.now) }
    requires marks_len { length marks.now ≡ cells_most }
    requires pooled { Pooled counts.now n cycles.now steps.now }
    requires out_len { length out.old ≡ cells_most }
    ensures out_after { take n out.new ≡ face_marks (cycle_marked (take n ids.now) (take n marks.now) v) (take n out.old) (take n counts.now) cycles.now steps.now }
    ensures out_len_2 { length out.new ≡ cells_most }
{
    let mut flags = [false; 256];
    flag_ids(ids, marks, n, &mut flags);
    mark_faces(ids, marks, n, &flags, counts, cycles, steps, v, out);
}
