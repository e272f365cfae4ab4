#![tactic(auto)]

// The parts of a file: numbers, bend lists and cycles as bytes, each from a place on.
ghost use Rattle.std.specs.Prelude.{◌≡◌, ◌++◌, ◌+◌, ◌<◌, ◌≤◌, T, length, drop};
ghost use Rattle.number.specs.Readers.{spread};
ghost use Rattle.number.specs.Numbers.{spell, numbers_end};
ghost use Rattle.coordinate.specs.Positions.{position_bytes};
ghost use Rattle.bends.specs.Bends.{bend_bytes};
ghost use Rattle.complex.specs.Decode.{cycle_bytes};
ghost use Rattle.store.specs.View.{cycle_of, cycles_from, width};
ghost use Rattle.file_parts.specs.Parts.{BytesPut, positions_from, run_of, cycle_spells, SpelledNumbers, Bends, Rings};

use coordinate::Position;

// ---- numbers

pub fn put_two(a: u32, b: u32, out: &mut [u8], at: usize) -> usize
    requires a_lt_numbers_end { a < numbers_end }
    requires b_lt_numbers_end { b < numbers_end }
    requires b_in_bounds { at + length (spell a ++ spell b) ≤ length out.old }
    ensures { BytesPut out.old at (spell a ++ spell b) out.new result }
{
    let next = number::put_number(a, out, at);
    number::put_number(b, out, next)
}

// n numbers of src from a place on.
fn put_numbers(src: &[u32], from: usize, n: usize, out: &mut [u8], at: usize) -> usize
    requires spelled_numbers { SpelledNumbers src.now from n }
    requires src_in_bounds { at + length (spread spell (run_of from n src.now)) ≤ length out.old }
    ensures { BytesPut out.old at (spread spell (run_of from n src.now)) out.new result }
{
    let mut place = at;
    for i in 0..n {
        let v = src[from + i];
        place = number::put_number(v, out, place);
    }
    place
}

// ---- bends

// n positions from a place on.
// Not one function with put_numbers: a contract for any call that writes would be longer than the loop.
fn put_positions(
    xs: &[f64; 2048],
    ys: &[f64; 2048],
    from: usize,
    n: usize,
    out: &mut [u8],
    at: usize,
) -> usize
    requires bends { Bends xs.now ys.now from n }
    requires ys_in_bounds { at + length (spread position_bytes (run_of from n (positions_from xs.now ys.now))) ≤ length out.old }
    ensures { BytesPut out.old at (spread position_bytes (run_of from n (positions_from xs.now ys.now))) out.new result }
{
    let mut place = at;
    for i in 0..n {
        let k = from + i;
        let p = Position { x: xs[k], y: ys[k] };
        place = coordinate::put_position(p, out, place);
    }
    place
}

// A bend list: a count and its positions.
pub fn put_bends(
    n: u32,
    xs: &[f64; 2048],
    ys: &[f64; 2048],
    from: usize,
    out: &mut [u8],
    at: usize,
) -> usize
    requires bends { Bends xs.now ys.now from n }
    requires ys_in_bounds { at + length (bend_bytes (run_of from n (positions_from xs.now ys.now))) ≤ length out.old }
    ensures { BytesPut out.old at (bend_bytes (run_of from n (positions_from xs.now ys.now))) out.new result }
{
    let next = number::put_number(n, out, at);
    put_positions(xs, ys, from, n as usize, out, next)
}

// ---- cycles

// The cycle of c steps, which begin at a place.
fn put_cycle(c: u32, steps: &[u32; 2048], from: usize, out: &mut [u8], at: usize) -> usize
    requires steps_len { length steps.now ≡ 2048 }
    requires c_bound { from + width c ≤ 2048 }
    requires t { T (cycle_spells (cycle_of c (drop from steps.now))) }
    requires steps_in_bounds { at + length (cycle_bytes (cycle_of c (drop from steps.now))) ≤ length out.old }
    ensures { BytesPut out.old at (cycle_bytes (cycle_of c (drop from steps.now))) out.new result }
{
    let next = number::put_number(c, out, at);
    put_numbers(steps, from, store::places(1, c), out, next)
}

// n cycles from a place on, whose steps begin at a place.
pub fn put_rings(
    cycles: &[u32; 512],
    from: usize,
    n: usize,
    steps: &[u32; 2048],
    first: usize,
    out: &mut [u8],
    at: usize,
) -> usize
    requires rings { Rings cycles.now from n steps.now first }
    requires steps_in_bounds { at + length (spread cycle_bytes (cycles_from (run_of from n cycles.now) (drop first steps.now))) ≤ length out.old }
    ensures { BytesPut out.old at (spread cycle_bytes (cycles_from (run_of from n cycles.now) (drop first steps.now))) out.new result }
{
    let mut place = at;
    let mut step = first;
    for i in 0..n {
        let c = cycles[from + i];
        place = put_cycle(c, steps, step, out, place);
        step = step + store::places(1, c);
    }
    place
}
