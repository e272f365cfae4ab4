#![tactic(auto)]

ghost use Rattle.std.specs.Prelude.{◌≡◌, ◌+◌, ◌<◌, ◌≤◌, length, take, drop};
ghost use Rattle.complex.specs.Lists.{one};
ghost use Rattle.complex.specs.Uncut.{is_lone};
ghost use Rattle.store.specs.View.{width, width_sum, cycle_of, cycles_from};
ghost use Rattle.ask_uncut_lone.specs.Lone.{lone_place, holding};

// The row of a cell, and the place of one of its cycles.
#[derive(Clone, Copy)]
pub struct Held {
    pub row: usize,
    pub place: usize,
}

// Whether the cycle with the number c at a place is v alone.
pub fn is_lone(c: u32, steps: &[u32; 2048], from: usize, v: u32) -> bool
    requires steps_len { length steps.now ≡ 2048 }
    requires c_bound { from + width c ≤ 2048 }
    ensures { result ≡ is_lone v (cycle_of c (drop from steps.now)) }
{
    if c == 0 {
        return v == steps[from];
    }
    false
}

// The place of the first lone cycle of v among m cycles, or m.
pub fn lone_place<'a>(cycles: &'a [u32; 512], m: usize, steps: &'a [u32; 2048], v: u32) -> usize
    requires cycles_len { length cycles.now ≡ 512 }
    requires steps_len { length steps.now ≡ 2048 }
    requires m_bound { m ≤ 512 }
    requires cycles_bound { width_sum (take m cycles.now) ≤ 2048 }
    ensures { result ≡ lone_place v (cycles_from (take m cycles.now) steps.now) }
{
    let mut from: usize = 0;
    for i in 0..m {
        let c = cycles[i];
        if is_lone(c, steps, from, v) {
            return i;
        }
        from += store::places(1, c);
    }
    m
}

// Which of n rows holds the cycle j, and its place there, by the rows' numbers of cycles.
pub fn row_holding(counts: &[u32; 256], n: usize, j: usize) -> Held
    requires counts_len { length counts.now ≡ 256 }
    requires n_bound { n ≤ 256 }
    ensures { result ≡ holding (take n counts.now) j }
{
    let mut place = j;
    for i in 0..n {
        let k = store::wide(counts[i]);
        if place < k {
            return Held { row: i, place };
        }
        place -= k;
    }
    Held { row: n, place }
}
