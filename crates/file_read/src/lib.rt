#![tactic(auto)]

ghost use Rattle.std.specs.Prelude.{◌≡◌, ◌+◌, ◌<◌, ◌≤◌, length, drop};
ghost use Rattle.number.specs.Readers.{times};
ghost use Rattle.complex.specs.Decode.{read_cycle};
ghost use Rattle.complex.specs.Sound.{cycles_most, steps_most};
ghost use Rattle.file_read.specs.Heads.{vertex_shape, open_shape, counted_shape, read_shape, ShapeRead, HeadRead};
ghost use Rattle.file_read.specs.Filling.{NumbersPut, CyclesLoaded};

use store::{Cell, Drawing, Shape};

// The ceilings.
const CYCLES_MOST: usize = 512;

const STEPS_MOST: usize = 2048;

// What a file is read as: 0 and its drawing, or 10 and the empty one.
#[derive(Clone, Copy)]
pub struct ReadAnswer {
    pub number: u32,
    pub drawing: Drawing,
}

// How many places of each array are in use.
#[derive(Clone, Copy)]
pub struct Used {
    pub bends: usize,
    pub cycles: usize,
    pub steps: usize,
}

// Every function below is put into its callers, which read a file's cells in one loop.

// ---- a shape, or a cell, up to its bends or cycles, and the place after that, if one stands there

#[inline(always)]
fn vertex_at(s: &[u8], at: usize) -> Option<(Shape, usize)>
    ensures { ShapeRead vertex_shape s.now at result }
{
    let Some((p, next)) = coordinate::read_position(s, at) else {
        return None;
    };
    Some((Shape::Vertex(p), next))
}

#[inline(always)]
fn open_at(s: &[u8], at: usize) -> Option<(Shape, usize)>
    ensures { ShapeRead open_shape s.now at result }
{
    let Some((start, end, bends, next)) = decode_fields::three_numbers(s, at) else {
        return None;
    };
    Some((Shape::Open { start, end, bends }, next))
}

// A face up to its cycles, or a closed edge up to its bends.
#[inline(always)]
fn counted_at(s: &[u8], at: usize, face: bool) -> Option<(Shape, usize)>
    ensures { ShapeRead (counted_shape face) s.now at result }
{
    let Some((n, next)) = number::read_number(s, at) else {
        return None;
    };
    if face {
        return Some((Shape::Face { cycles: n }, next));
    }
    Some((Shape::Closed { bends: n }, next))
}

#[inline(always)]
fn shape_at(s: &[u8], at: usize, kind: u32) -> Option<(Shape, usize)>
    ensures { ShapeRead (read_shape kind) s.now at result }
{
    match kind {
        0 => vertex_at(s, at),
        1 => open_at(s, at),
        2 => counted_at(s, at, false),
        3 => counted_at(s, at, true),
        _ => None,
    }
}

// A cell up to its bends or cycles.
#[inline(always)]
pub fn head_at(s: &[u8], at: usize) -> Option<(Cell, usize)>
    ensures { HeadRead s.now at result }
{
    let Some((id, kind, rest)) = decode_fields::two_numbers(s, at) else {
        return None;
    };
    let Some((shape, next)) = shape_at(s, rest, kind) else {
        return None;
    };
    Some((Cell { id, shape }, next))
}

// The m numbers from a place on, put into out, and the place after them, if they stand there.
#[inline(always)]
fn put_numbers(s: &[u8], at: usize, m: usize, out: &mut [u32], used: usize) -> Option<usize>
    requires at_in_bounds { at ≤ length s.now }
    requires m_in_bounds { used + m ≤ length out.old }
    ensures { NumbersPut s.now at m out.old used out.new result }
{
    let mut p = at;
    for i in 0..m {
        let Some((v, next)) = number::read_number(s, p) else {
            return None;
        };
        out[used + i] = v;
        p = next;
    }
    Some(p)
}

// The cycle at a place: its number of steps put into cycles, and its steps, or its lone vertex,
// into steps. The place after it and what is in use with it, if a sound drawing's file can have it there.
#[inline(always)]
fn load_cycle(
    s: &[u8],
    at: usize,
    cycles: &mut [u32],
    steps: &mut [u32],
    used: Used,
) -> Option<(usize, Used)>
    requires cycles_len { length cycles.old ≡ cycles_most }
    requires steps_len { length steps.old ≡ steps_most }
    requires cycles_lt_cycles_most { used.cycles < cycles_most }
    requires steps_le_steps_most { used.steps ≤ steps_most }
    ensures { CyclesLoaded (times read_cycle 1 (drop at s.now)) s.now cycles.old steps.old used cycles.new steps.new result }
{
    let Some((m, first)) = number::read_number(s, at) else {
        return None;
    };
    let w = store::places(1, m);
    let t = used.steps;
    if STEPS_MOST - t < w {
        return None;
    }
    let k = used.cycles;
    cycles[k] = m;
    let Some(next) = put_numbers(s, first, w, steps, t) else {
        return None;
    };
    Some((
        next,
        Used {
            bends: used.bends,
            cycles: k + 1,
            steps: t + w,
        },
    ))
}

// The n cycles from a place on, in the same way.
#[inline(always)]
pub fn load_cycles(
    s: &[u8],
    at: usize,
    n: usize,
    cycles: &mut [u32],
    steps: &mut [u32],
    used: Used,
) -> Option<(usize, Used)>
    requires at_in_bounds { at ≤ length s.now }
    requires cycles_len { length cycles.old ≡ cycles_most }
    requires steps_len { length steps.old ≡ steps_most }
    requires cycles_le_cycles_most { used.cycles ≤ cycles_most }
    requires steps_le_steps_most { used.steps ≤ steps_most }
    ensures { CyclesLoaded (times read_cycle n (drop at s.now)) s.now cycles.old steps.old used cycles.new steps.new result }
{
    if CYCLES_MOST - used.cycles < n {
        return None;
    }
    let mut p = at;
    let mut u = used;
    for i in 0..n {
        let Some((next, more)) = load_cycle(s, p, cycles, steps, u) else {
            return None;
        };
        p = next;
        u = more;
    }
    Some((p, u))
}
