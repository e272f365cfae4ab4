#![tactic(auto)]

ghost use Rattle.std.specs.Prelude.{◌≡◌, not, map, ◌+◌, ◌<◌, ◌≤◌, length, take, drop};
ghost use Rattle.complex.specs.Lists.{one, distance};
ghost use Rattle.complex.specs.Cells.{face};
ghost use Rattle.store.specs.View.{width_sum};
ghost use Rattle.rows_corners.specs.Arcs.{arc_of, Arc, Pasted};

use rows_spans::{Spans, Used};

// A list of cycles in two number arrays.
#[derive(Clone, Copy)]
pub struct Listed {
    pub counts: [u32; 512],
    pub steps: [u32; 2048],
    pub used: Used,
}

// The opposite flags.
pub fn others(flags: &[bool; 512], out: &mut [bool; 512])
    requires flags_len { length flags.now ≡ 512 }
    requires out_len { length out.old ≡ 512 }
    ensures { out.new ≡ map not flags.now }
{
    for i in 0..512 {
        out[i] = !flags[i];
    }
}

// len of the n steps at a place, from one of them on and round the end; the place after them.
pub fn copy_arc(
    steps: &[u32; 2048],
    base: usize,
    n: usize,
    from: usize,
    len: usize,
    out: &mut [u32],
    at: usize,
) -> usize
    requires { Arc steps.now base n from len out.old at }
    ensures value { result ≡ at + len }
    ensures pasted { Pasted out.old at (arc_of steps.now base n from len) out.new }
{
    let most = n - from;
    if len <= most {
        return rows_spans::copy_run(steps, base + from, len, out, at);
    }
    let end = rows_spans::copy_run(steps, base + from, most, out, at);
    rows_spans::copy_run(steps, base, len - most, out, end)
}

// How many steps lead from corner s to corner t of a cycle of m, round its end.
pub fn between(m: usize, s: usize, t: usize) -> usize
    requires m_bound { m ≤ 2048 }
    requires s_le_m { s ≤ m }
    requires t_le_m { t ≤ m }
    ensures { result ≡ distance m s t }
{
    if s <= t {
        return t - s;
    }
    t + m - s
}

// Where the steps of cycle c of a face begin.
pub fn cycle_place(cycles: &[u32; 512], t: Spans, c: usize) -> usize
    requires cycles_len { length cycles.now ≡ 512 }
    requires c_bound { t.cycles.first + c ≤ 512 }
    requires cycles_bound { t.steps.first + width_sum (take c (drop t.cycles.first cycles.now)) ≤ 2048 }
    ensures { result ≡ t.steps.first + width_sum (take c (drop t.cycles.first cycles.now)) }
{
    let k = t.cycles;
    let s = t.steps;
    s.first + rows_spans::place_sum(1, cycles, k.first, c)
}
