#![tactic(auto)]

// Question 6 of the cycles of a new face in a script: the steps of each join. A walk along a list that
// asks this of it answers the place after the list, or none at a no. Rows are looked up by hints.
ghost use Rattle.std.specs.Prelude.{eqb, take, length, ◌≡◌, true, false, ◌≤◌, ◌<◌};
ghost use Rattle.number.specs.Numbers.{read_number};
ghost use Rattle.complex.specs.Lists.{all};
ghost use Rattle.complex.specs.Decode.{read_cycle};
ghost use Rattle.store.specs.Index.{Rising, row_of};
ghost use Rattle.sound.specs.Rows.{rows_of, leads_in, joins_in};
ghost use Rattle.decode_parts.specs.Lists.{numbers_read, cycles_read, Stand};
ghost use Rattle.ask_face_named.specs.Walks.{Rowed, Walked, passes_in};
ghost use Rattle.ask_face_joins.specs.Hints.{Hinted};

// The places of the hints at rows.
const HINTS: usize = 256;

// The row of an id, or n: that of its hint, or else searched and kept as its hint.
fn row_of(ids: &[u32; 256], n: usize, hints: &mut [u8; 256], id: u32) -> usize
    requires n_bound { n ≤ 256 }
    requires ids_len { length ids.now ≡ 256 }
    requires hints_len { length hints.old ≡ 256 }
    requires rising { Rising (take n ids.now) }
    ensures value { result ≡ row_of id (take n ids.now) }
    ensures hints_len_2 { length hints.new ≡ 256 }
{
    let at = store::wide(id) % HINTS;
    let hint = rows_halfedge::row_in(hints[at]);
    if hint < n {
        if ids[hint] == id {
            return hint;
        }
    }
    let row = store::find(ids, n, id);
    if row < n {
        hints[at] = row as u8;
    }
    row
}

// Whether m steps in a script are all s.
fn repeated(script: &[u8], at: usize, m: u32, s: u32) -> Option<usize>
    requires { Stand read_number script.now at m }
    ensures { Walked read_number script.now at m (all (eqb s) (numbers_read script.now at m)) result }
{
    let mut place = at;
    for _ in 0..m {
        let taken = script::take_number(script, place);
        let t = taken.value;
        if s != t {
            return None;
        }
        place = taken.next;
    }
    Some(place)
}

// Whether m steps in a script, of open edges, lead from u to w.
fn leads(
    script: &[u8],
    at: usize,
    m: u32,
    ids: &[u32; 256],
    kinds: &[u32; 256],
    starts: &[u32; 256],
    ends: &[u32; 256],
    n: usize,
    hints: &mut [u8; 256],
    u: u32,
    w: u32,
) -> Option<usize>
    requires stand { Stand read_number script.now at m }
    requires hinted { Hinted n ids.now kinds.now starts.now ends.now hints.old }
    ensures walked { Walked read_number script.now at m (leads_in (rows_of n ids.now kinds.now starts.now ends.now) u (numbers_read script.now at m) w) result }
    ensures hints_len { length hints.new ≡ 256 }
{
    let mut place = at;
    let mut here = u;
    for _ in 0..m {
        let taken = script::take_number(script, place);
        let s = taken.value;
        let row = row_of(ids, n, hints, s / 2);
        if n <= row {
            return None;
        }
        if !rows_halfedge::goes_on(kinds, starts, ends, n, row, here, s) {
            return None;
        }
        here = rows_halfedge::side(ends, starts, n, row, s);
        place = taken.next;
    }
    if here == w {
        return Some(place);
    }
    None
}

// Whether m steps in a script join last to first, or are all one closed edge in one direction.
fn path_joins(
    script: &[u8],
    at: usize,
    m: u32,
    ids: &[u32; 256],
    kinds: &[u32; 256],
    starts: &[u32; 256],
    ends: &[u32; 256],
    n: usize,
    hints: &mut [u8; 256],
) -> Option<usize>
    requires stand { Stand read_number script.now at m }
    requires le_m { 1 ≤ m }
    requires hinted { Hinted n ids.now kinds.now starts.now ends.now hints.old }
    ensures walked { Walked read_number script.now at m (joins_in (rows_of n ids.now kinds.now starts.now ends.now) (numbers_read script.now at m)) result }
    ensures hints_len { length hints.new ≡ 256 }
{
    let taken = script::take_number(script, at);
    let s = taken.value;
    let row = row_of(ids, n, hints, s / 2);
    if n <= row {
        return None;
    }
    if kinds[row] == 2 {
        return repeated(script, at, m, s);
    }
    let u = rows_halfedge::side(starts, ends, n, row, s);
    leads(script, at, m, ids, kinds, starts, ends, n, hints, u, u)
}

// Whether a cycle in a script joins.
fn cycle_joins(
    script: &[u8],
    at: usize,
    ids: &[u32; 256],
    kinds: &[u32; 256],
    starts: &[u32; 256],
    ends: &[u32; 256],
    n: usize,
    hints: &mut [u8; 256],
) -> Option<usize>
    requires stand { Stand read_cycle script.now at 1 }
    requires hinted { Hinted n ids.now kinds.now starts.now ends.now hints.old }
    ensures walked { Walked read_cycle script.now at 1 (all (passes_in (rows_of n ids.now kinds.now starts.now ends.now) false) (cycles_read script.now at 1)) result }
    ensures hints_len { length hints.new ≡ 256 }
{
    let size = script::take_number(script, at);
    let m = size.value;
    let first = size.next;
    if m == 0 {
        return ask_face_named::lone_named(script, first, ids, kinds, n);
    }
    path_joins(script, first, m, ids, kinds, starts, ends, n, hints)
}

// Whether the cycles of a face join.
pub fn cycles_join(
    script: &[u8],
    first: usize,
    k: u32,
    ids: &[u32; 256],
    kinds: &[u32; 256],
    starts: &[u32; 256],
    ends: &[u32; 256],
    n: usize,
    hints: &mut [u8; 256],
) -> bool
    requires stand { Stand read_cycle script.now first k }
    requires rowed { Rowed n ids.now kinds.now starts.now ends.now }
    requires hints_len { length hints.old ≡ 256 }
    ensures { result ≡ all (passes_in (rows_of n ids.now kinds.now starts.now ends.now) false) (cycles_read script.now first k) }
{
    let mut at = first;
    for _ in 0..k {
        let Some(next) = cycle_joins(script, at, ids, kinds, starts, ends, n, hints) else {
            return false;
        };
        at = next;
    }
    true
}
