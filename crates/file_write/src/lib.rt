#![tactic(auto)]

ghost use Rattle.std.specs.Prelude.{◌≡◌, ◌+◌, ◌<◌, ◌≤◌, T, length, drop};
ghost use Rattle.number.specs.Numbers.{numbers_end};
ghost use Rattle.coordinate.specs.Bounds.{within};
ghost use Rattle.complex.specs.Cells.{vertex, open_edge, closed_edge, face};
ghost use Rattle.complex.specs.File.{cell_bytes};
ghost use Rattle.store.specs.View.{cycles_from};
ghost use Rattle.file_parts.specs.Parts.{BytesPut, positions_from, run_of, Bends, Rings};
ghost use Rattle.file_write.specs.Places.{PlaceFits, cell_in, place_after, CellReady};

use coordinate::Position;
use store::{Cell, Shape};

#[derive(Clone, Copy)]
pub struct Written {
    pub number: u32,
    pub count: usize,
}

// Where a cell's bends, cycles and steps begin.
#[derive(Clone, Copy)]
pub struct Place {
    pub bends: usize,
    pub cycles: usize,
    pub steps: usize,
}

// ---- cells, each at the front of what is lent to it

fn put_vertex(id: u32, p: Position, out: &mut [u8]) -> usize
    requires id_lt_numbers_end { id < numbers_end }
    requires t { T (within p) }
    requires p_in_bounds { length (cell_bytes (record { id = id; figure = vertex p })) ≤ length out.old }
    ensures { BytesPut out.old 0 (cell_bytes (record { id = id; figure = vertex p })) out.new result }
{
    let at = file_parts::put_two(id, 0, out, 0);
    coordinate::put_position(p, out, at)
}

fn put_open(
    id: u32,
    a: u32,
    b: u32,
    n: u32,
    xs: &[f64; 2048],
    ys: &[f64; 2048],
    from: usize,
    out: &mut [u8],
) -> usize
    requires id_lt_numbers_end { (id < numbers_end) × (a < numbers_end) × (b < numbers_end) }
    requires bends { Bends xs.now ys.now from n }
    requires ys_in_bounds { length (cell_bytes (record { id = id; figure = open_edge a b (run_of from n (positions_from xs.now ys.now)) })) ≤ length out.old }
    ensures { BytesPut out.old 0 (cell_bytes (record { id = id; figure = open_edge a b (run_of from n (positions_from xs.now ys.now)) })) out.new result }
{
    let at = file_parts::put_two(id, 1, out, 0);
    let next = file_parts::put_two(a, b, out, at);
    file_parts::put_bends(n, xs, ys, from, out, next)
}

fn put_closed(
    id: u32,
    n: u32,
    xs: &[f64; 2048],
    ys: &[f64; 2048],
    from: usize,
    out: &mut [u8],
) -> usize
    requires id_lt_numbers_end { id < numbers_end }
    requires bends { Bends xs.now ys.now from n }
    requires ys_in_bounds { length (cell_bytes (record { id = id; figure = closed_edge (run_of from n (positions_from xs.now ys.now)) })) ≤ length out.old }
    ensures { BytesPut out.old 0 (cell_bytes (record { id = id; figure = closed_edge (run_of from n (positions_from xs.now ys.now)) })) out.new result }
{
    let at = file_parts::put_two(id, 2, out, 0);
    file_parts::put_bends(n, xs, ys, from, out, at)
}

fn put_face(
    id: u32,
    k: u32,
    cycles: &[u32; 512],
    from: usize,
    steps: &[u32; 2048],
    first: usize,
    out: &mut [u8],
) -> usize
    requires id_lt_numbers_end { id < numbers_end }
    requires rings { Rings cycles.now from k steps.now first }
    requires steps_in_bounds { length (cell_bytes (record { id = id; figure = face (cycles_from (run_of from k cycles.now) (drop first steps.now)) })) ≤ length out.old }
    ensures { BytesPut out.old 0 (cell_bytes (record { id = id; figure = face (cycles_from (run_of from k cycles.now) (drop first steps.now)) })) out.new result }
{
    let at = file_parts::put_two(id, 3, out, 0);
    let next = number::put_number(k, out, at);
    file_parts::put_rings(cycles, from, k as usize, steps, first, out, next)
}

// The cell c, at the front of what is lent; the count of its bytes comes back.
pub fn put_cell(
    c: Cell,
    at: Place,
    xs: &[f64; 2048],
    ys: &[f64; 2048],
    cycles: &[u32; 512],
    steps: &[u32; 2048],
    out: &mut [u8],
) -> usize
    requires cell_ready { CellReady c at xs.now ys.now cycles.now steps.now }
    requires ys_in_bounds { length (cell_bytes (cell_in c at cycles.now steps.now (positions_from xs.now ys.now))) ≤ length out.old }
    ensures { BytesPut out.old 0 (cell_bytes (cell_in c at cycles.now steps.now (positions_from xs.now ys.now))) out.new result }
{
    let id = c.id;
    let s = c.shape;
    let bend = at.bends;
    let ring = at.cycles;
    let step = at.steps;
    match s {
        Shape::Vertex(p) => put_vertex(id, p, out),
        Shape::Open { start, end, bends } => put_open(id, start, end, bends, xs, ys, bend, out),
        Shape::Closed { bends } => put_closed(id, bends, xs, ys, bend, out),
        Shape::Face { cycles: k } => put_face(id, k, cycles, ring, steps, step, out),
    }
}

// ---- the places of the cells, one after another

pub fn place_after(s: Shape, cycles: &[u32; 512], at: Place) -> Place
    requires { PlaceFits s cycles.now at }
    ensures { result ≡ place_after s cycles.now at }
{
    let k = store::wide(store::cycle_count(s));
    let b = store::wide(store::bend_count(s));
    let ring = at.cycles;
    let w = rows_spans::place_sum(1, cycles, ring, k);
    Place {
        bends: at.bends + b,
        cycles: ring + k,
        steps: at.steps + w,
    }
}
