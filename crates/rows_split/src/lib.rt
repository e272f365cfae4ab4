#![tactic(auto)]

ghost use Rattle.std.specs.Prelude.{◌≡◌, ◌+◌, ◌<◌, ◌≤◌, length, take, drop};
ghost use Rattle.store.specs.View.{width_sum};
ghost use Rattle.rows_split.specs.Parts.{place_of};

use rows_spans::Spans;

// Where a cycle stands: its number of steps, 0 if it is a lone vertex, and the place of the first.
#[derive(Clone, Copy)]
pub struct Place {
    pub m: u32,
    pub at: usize,
}

// The place of cycle c of a face.
pub fn place_of(cycles: &[u32; 512], t: Spans, c: u32) -> Place
    requires cycles_len { length cycles.now ≡ 512 }
    requires c_bound { t.cycles.first + c < 512 }
    requires cycles_bound { t.steps.first + width_sum (take c (drop t.cycles.first cycles.now)) ≤ 2048 }
    ensures { result ≡ place_of cycles.now t c }
{
    let k = t.cycles;
    let i = c as usize;
    let j = k.first + i;
    Place {
        m: cycles[j],
        at: rows_corners::cycle_place(cycles, t, i),
    }
}
