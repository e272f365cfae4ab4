#![tactic(auto)]

ghost use Rattle.std.specs.Prelude.{◌≡◌};
ghost use Rattle.kernel_places.specs.Standing.{HasBy, FoundBy, RowsIn, head_by};

use answer::Totals;
use rows_stretches::Place;

// Where the cycle c of the face f stands.
pub fn place_of(
    count: usize,
    ids: &[u32; 256],
    counts: &[u32; 256],
    cycles: &[u32; 512],
    t: Totals,
    f: u32,
    c: usize,
) -> Place
    requires { HasBy count ids.now counts.now cycles.now t f c }
    ensures { FoundBy count ids.now counts.now cycles.now t f c result }
{
    let row = store::find(ids, count, f);
    let s = kernel_cycles::spans_at(counts, cycles, row, t);
    let at = rows_corners::cycle_place(cycles, s, c);
    let k = s.cycles;
    let i = k.first + c;
    let m = store::wide(cycles[i]);
    Place {
        spans: s,
        cycle: c,
        count: m,
        at: at,
    }
}

// Where a step of the open edge e ends: at the start of e if it is backward.
pub fn head_of(
    count: usize,
    ids: &[u32; 256],
    starts: &[u32; 256],
    ends: &[u32; 256],
    e: u32,
    back: bool,
) -> u32
    requires { RowsIn count ids.now starts.now ends.now }
    ensures { result ≡ head_by count ids.now starts.now ends.now e back }
{
    if back {
        return store::value_at(0, ids, starts, count, e);
    }
    store::value_at(0, ids, ends, count, e)
}
