#![tactic(auto)]

// Question 4 of the cycles of a new face in a script: they name vertices and edges. A walk along a list
// that asks this of it answers the place after the list, or none at a no.
ghost use Rattle.std.specs.Prelude.{eqb, take, get_or, ◌≡◌, true, false, ◌||◌, ◌<◌};
ghost use Rattle.number.specs.Numbers.{read_number};
ghost use Rattle.complex.specs.Lists.{all};
ghost use Rattle.complex.specs.Decode.{read_cycle};
ghost use Rattle.sound.specs.Rows.{is_vertex_in};
ghost use Rattle.decode_parts.specs.Lists.{numbers_read, cycles_read, Stand};
ghost use Rattle.ask_face_named.specs.Walks.{Valued, Walked, step_named, names_in};

// Whether a lone vertex is one.
pub fn lone_named(
    script: &[u8],
    at: usize,
    ids: &[u32; 256],
    kinds: &[u32; 256],
    n: usize,
) -> Option<usize>
    requires stand { Stand read_number script.now at 1 }
    requires valued { Valued n ids.now kinds.now }
    ensures { Walked read_number script.now at 1 (is_vertex_in (take n ids.now) (take n kinds.now) (get_or (numbers_read script.now at 1) 0 0)) result }
{
    let taken = script::take_number(script, at);
    let kind = store::value_at(4, ids, kinds, n, taken.value);
    if kind == 0 {
        return Some(taken.next);
    }
    None
}

fn is_edge(kind: u32) -> bool
    ensures { result ≡ (eqb kind 1 || eqb kind 2) }
{
    if kind == 1 {
        return true;
    }
    kind == 2
}

// Whether a step names an edge.
fn step_named(ids: &[u32; 256], kinds: &[u32; 256], n: usize, s: u32) -> bool
    requires { Valued n ids.now kinds.now }
    ensures { result ≡ step_named (take n ids.now) (take n kinds.now) s }
{
    let kind = store::value_at(4, ids, kinds, n, s / 2);
    is_edge(kind)
}

// Whether a cycle in a script names vertices and edges.
fn cycle_named(script: &[u8], at: usize, ids: &[u32; 256], kinds: &[u32; 256], n: usize) -> bool
    requires stand { Stand read_cycle script.now at 1 }
    requires valued { Valued n ids.now kinds.now }
    ensures { result ≡ all (names_in (take n ids.now) (take n kinds.now)) (cycles_read script.now at 1) }
{
    let size = script::take_number(script, at);
    let m = size.value;
    let first = size.next;
    if m == 0 {
        let Some(_) = lone_named(script, first, ids, kinds, n) else {
            return false;
        };
        return true;
    }
    let mut place = first;
    for _ in 0..m {
        let taken = script::take_number(script, place);
        if !step_named(ids, kinds, n, taken.value) {
            return false;
        }
        place = taken.next;
    }
    true
}

// Whether the cycles of a face name vertices and edges.
pub fn cycles_named(
    script: &[u8],
    first: usize,
    k: u32,
    ids: &[u32; 256],
    kinds: &[u32; 256],
    n: usize,
) -> bool
    requires stand { Stand read_cycle script.now first k }
    requires valued { Valued n ids.now kinds.now }
    ensures { result ≡ all (names_in (take n ids.now) (take n kinds.now)) (cycles_read script.now first k) }
{
    let mut at = first;
    for _ in 0..k {
        if !cycle_named(script, at, ids, kinds, n) {
            return false;
        }
        at = script::cycle_end(script, at);
    }
    true
}
