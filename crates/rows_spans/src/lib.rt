#![tactic(auto)]

ghost use Rattle.std.specs.Prelude.{◌≡◌, ◌∷◌, [], ◌++◌, ◌+◌, ◌<◌, ◌≤◌, take, drop, set, length};
ghost use Rattle.std.proofs.Math.Seq.{paste};
ghost use Rattle.complex.specs.Cells.{lone};
ghost use Rattle.complex.specs.Lists.{total};
ghost use Rattle.store.specs.Edits.{places_of};
ghost use Rattle.rows_spans.specs.Runs.{span_of, spans_of};
ghost use Rattle.rows_spans.specs.Building.{Building, Built, built, more_cycle, Closes};

// A run of places: where it begins, how many it has, and how many follow.
#[derive(Clone, Copy)]
pub struct Span {
    pub first: usize,
    pub count: usize,
    pub rest: usize,
}

// The places that n counts from a given one on stand for; a count 0 stands for z.
pub fn place_sum(z: usize, counts: &[u32], from: usize, n: usize) -> usize
    requires n_in_bounds { from + n ≤ length counts.now }
    requires counts_bound { total (places_of z) (take n (drop from counts.now)) ≤ 2048 }
    ensures { result ≡ total (places_of z) (take n (drop from counts.now)) }
{
    let mut sum: usize = 0;
    for i in 0..n {
        let k = store::places(z, counts[from + i]);
        sum = sum + k;
    }
    sum
}

// Where the bends of the cell in a row begin, if counts are the cells' numbers of bends.
pub fn bend_start(counts: &[u32], row: usize) -> usize
    requires row_in_bounds { row ≤ length counts.now }
    requires counts_bound { total (places_of 0) (take row counts.now) ≤ 2048 }
    ensures { result ≡ total (places_of 0) (take row counts.now) }
{
    place_sum(0, counts, 0, row)
}

// The places that a run of counts stands for, among those of all counts.
pub fn span_of(z: usize, counts: &[u32], s: Span) -> Span
    requires rest_in_bounds { s.first + s.count + s.rest ≤ length counts.now }
    requires counts_bound { total (places_of z) (take (s.first + s.count + s.rest) counts.now) ≤ 2048 }
    ensures { result ≡ span_of z counts.now s }
{
    let a = place_sum(z, counts, 0, s.first);
    let b = place_sum(z, counts, s.first, s.count);
    let c = place_sum(z, counts, s.first + s.count, s.rest);
    Span {
        first: a,
        count: b,
        rest: c,
    }
}

// The cycles and the steps of one cell.
#[derive(Clone, Copy)]
pub struct Spans {
    pub cycles: Span,
    pub steps: Span,
}

// Those of the cell in a row of n, if at has the cells' numbers of cycles.
pub fn spans_of(at: &[u32], n: usize, row: usize, cycles: &[u32]) -> Spans
    requires n_in_bounds { n ≤ length at.now }
    requires row_lt_n { row < n }
    requires at_in_bounds { total (places_of 0) (take n at.now) ≤ length cycles.now }
    requires at_bound { total (places_of 0) (take n at.now) ≤ 2048 }
    requires cycles_bound { total (places_of 1) (take (total (places_of 0) (take n at.now)) cycles.now) ≤ 2048 }
    ensures { result ≡ spans_of at.now n row cycles.now }
{
    let rows = Span {
        first: row,
        count: 1,
        rest: n - (row + 1),
    };
    let c = span_of(0, at, rows);
    let s = span_of(1, cycles, c);
    Spans {
        cycles: c,
        steps: s,
    }
}

// n numbers copied, and the place after them.
pub fn copy_run(src: &[u32], from: usize, n: usize, out: &mut [u32], at: usize) -> usize
    requires n_in_bounds { from + n ≤ length src.now }
    requires n_in_bounds_2 { at + n ≤ length out.old }
    ensures value { result ≡ at + n }
    ensures out_after { out.new ≡ paste out.old at (drop from src.now) n }
{
    for i in 0..n {
        out[at + i] = src[from + i];
    }
    at + n
}

// How much of two number arrays a list of cycles under construction takes.
#[derive(Clone, Copy)]
pub struct Used {
    pub cycles: usize,
    pub steps: usize,
}

// The list with a lone vertex more.
pub fn push_lone(counts: &mut [u32], steps: &mut [u32], u: Used, v: u32) -> Used
    requires building { Building counts.old u steps.old }
    requires cycles_in_bounds { u.cycles < length counts.old }
    requires steps_in_bounds { u.steps < length steps.old }
    ensures value { result ≡ more_cycle u 1 }
    ensures built { Built (built counts.old u steps.old ++ (lone v ∷ [])) counts.new result steps.new }
{
    let i = u.cycles;
    let j = u.steps;
    counts[i] = 0;
    steps[j] = v;
    Used {
        cycles: i + 1,
        steps: j + 1,
    }
}

// A step put down, and the place after it.
pub fn put_step(steps: &mut [u32], at: usize, s: u32) -> usize
    requires { at < length steps.old }
    ensures value { result ≡ at + 1 }
    ensures steps_after { steps.new ≡ set steps.old at s }
{
    steps[at] = s;
    at + 1
}

// The m steps after those in use become a cycle.
pub fn close_path(counts: &mut [u32], u: Used, m: usize) -> Used
    requires cycles_in_bounds { u.cycles < length counts.old }
    requires le_m { 1 ≤ m }
    requires m_bound { u.steps + m ≤ 2048 }
    ensures value { result ≡ more_cycle u m }
    ensures closes { Closes counts.old u m counts.new }
{
    let i = u.cycles;
    counts[i] = m as u32;
    Used {
        cycles: i + 1,
        steps: u.steps + m,
    }
}
