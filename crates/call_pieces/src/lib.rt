#![tactic(auto)]

// The number of pieces of sound arrays: every row begins as a piece of its own, and an open edge is tied to its ends, a face to one cell of each cycle.
ghost use Rattle.std.specs.Prelude.{◌≡◌, ◌+◌, ◌≤◌, ◌<◌, T, eqb, take, drop, get_or, length, [], ◌∷◌, map};
ghost use Rattle.complex.specs.Groups.{is_in};
ghost use Rattle.complex.specs.Sound.{cycles_most, steps_most};
ghost use Rattle.complex.specs.Pieces.{pieces};
ghost use Rattle.complex.proofs.Every.{Every};
ghost use Rattle.complex.proofs.Ties.{anchor as anchored};
ghost use Rattle.store.specs.View.{sheet_of, width_sum, cycles_from};
ghost use Rattle.lent.specs.Arrays.{held_by, sound_arrays};
ghost use Rattle.call_pieces.specs.Tying.{Finds, Some, Grown, anchor_in, anchors_in};
ghost use Rattle.lent.specs.Sheets.{seen};

use lent::SheetRef;

const OPEN: u32 = 1;

// What a cycle of c steps is tied by, where s stands in its first place: its lone vertex, or the edge of its first step.
fn anchor(c: u32, s: u32) -> u32
    ensures { result ≡ anchor_in c s }
{
    if c == 0 {
        return s;
    }
    s / 2
}

// The cell in a row is tied to the cell id; how many pieces are left.
fn tie(
    up: &mut [u8; 256],
    table: &[u8; 1024],
    ids: &[u32; 256],
    n: usize,
    row: usize,
    id: u32,
    left: u32,
) -> u32
    requires finds { Finds n table.now ids.now }
    requires row_lt_n { row < n }
    requires t { T (is_in eqb (take n ids.now) id) }
    requires some { Some (take n ids.now) up.old left }
    ensures { Grown (take n ids.now) up.old left (get_or ids.now row 0) (id ∷ []) up.new result }
{
    let other = lent_table::row_of(table, ids, n, id);
    left - rows_pieces::join(up, row, other)
}

// After a row: how many pieces are left, and the place of the next row's steps.
#[derive(Clone, Copy)]
struct Tied {
    left: u32,
    next: usize,
}

// The face in a row is tied to its k cycles, from the first of them and its place on.
fn tie_cycles(
    up: &mut [u8; 256],
    table: &[u8; 1024],
    ids: &[u32; 256],
    n: usize,
    row: usize,
    cycles: &[u32; 512],
    first: usize,
    k: usize,
    steps: &[u32; 2048],
    from: usize,
    left: u32,
) -> Tied
    requires finds { Finds n table.now ids.now }
    requires row_lt_n { row < n }
    requires cycles_len { (length cycles.now ≡ cycles_most) × (length steps.now ≡ steps_most) }
    requires k_bound { (first + k ≤ cycles_most) × (from + width_sum (take k (drop first cycles.now)) ≤ steps_most) }
    requires every { Every (λ j. T (is_in eqb (take n ids.now) j)) (map anchored (cycles_from (take k (drop first cycles.now)) (drop from steps.now))) }
    requires some { Some (take n ids.now) up.old left }
    ensures grown { Grown (take n ids.now) up.old left (get_or ids.now row 0) (map anchored (cycles_from (take k (drop first cycles.now)) (drop from steps.now))) up.new result.left }
    ensures next_value { result.next ≡ from + width_sum (take k (drop first cycles.now)) }
{
    let mut rest = left;
    let mut at = from;
    for j in 0..k {
        let c = cycles[first + j];
        let a = anchor(c, steps[at]);
        rest = tie(up, table, ids, n, row, a, rest);
        at = at + store::places(1, c);
    }
    Tied {
        left: rest,
        next: at,
    }
}

// The cell in a row is tied to what it names: an open edge to its ends, a face to its cycles.
fn tie_row(
    up: &mut [u8; 256],
    table: &[u8; 1024],
    ids: &[u32; 256],
    n: usize,
    row: usize,
    kind: u32,
    start: u32,
    end: u32,
    cycles: &[u32; 512],
    first: usize,
    k: usize,
    steps: &[u32; 2048],
    from: usize,
    left: u32,
) -> Tied
    requires finds { Finds n table.now ids.now }
    requires row_lt_n { (row < n) × (kind ≡ 1 → k ≡ 0) }
    requires cycles_len { (length cycles.now ≡ cycles_most) × (length steps.now ≡ steps_most) }
    requires k_bound { (first + k ≤ cycles_most) × (from + width_sum (take k (drop first cycles.now)) ≤ steps_most) }
    requires every { Every (λ j. T (is_in eqb (take n ids.now) j)) (anchors_in kind start end (cycles_from (take k (drop first cycles.now)) (drop from steps.now))) }
    requires some { Some (take n ids.now) up.old left }
    ensures grown { Grown (take n ids.now) up.old left (get_or ids.now row 0) (anchors_in kind start end (cycles_from (take k (drop first cycles.now)) (drop from steps.now))) up.new result.left }
    ensures next_value { result.next ≡ from + width_sum (take k (drop first cycles.now)) }
{
    if kind == OPEN {
        let one = tie(up, table, ids, n, row, start, left);
        let two = tie(up, table, ids, n, row, end, one);
        return Tied {
            left: two,
            next: from,
        };
    }
    tie_cycles(up, table, ids, n, row, cycles, first, k, steps, from, left)
}

// How many pieces there are.
pub fn pieces(view: &SheetRef<'_>) -> u32
    requires { T (sound_arrays (seen view.now)) }
    ensures { result ≡ pieces (sheet_of (held_by (seen view.now))).cells }
{
    view.known();
    let mut table = [0; 1024];
    lent_table::fill(&mut table, view.ids, view.count);
    let mut up = [0; 256];
    rows_pieces::part(&mut up, view.count);
    let mut left = view.count as u32;
    let mut first: usize = 0;
    let mut from: usize = 0;
    for i in 0..view.count {
        let k = store::wide(view.counts[i]);
        let t = tie_row(
            &mut up,
            &table,
            view.ids,
            view.count,
            i,
            view.kinds[i],
            view.starts[i],
            view.ends[i],
            view.cycles,
            first,
            k,
            view.steps,
            from,
            left,
        );
        left = t.left;
        from = t.next;
        first = first + k;
    }
    left
}
