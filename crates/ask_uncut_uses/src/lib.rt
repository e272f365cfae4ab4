#![tactic(auto)]

ghost use Rattle.std.specs.Prelude.{◌≡◌, ◌+◌, ◌≤◌, take, drop, length};
ghost use mathlib.Core.List.{◌∷◌, [], map, foldl};
ghost use Rattle.complex.specs.Cells.{steps_of};
ghost use Rattle.complex.specs.Uses.{step_uses, cycle_uses};
ghost use Rattle.store.specs.View.{halfedge_of, width, width_sum, cycle_of, cycles_from};
ghost use Rattle.ask_uncut_uses.specs.Uses.{no_uses, add_use, one_use, uses_two, row_uses, Faces};

// A step of an edge: its face, the cycle there, the step of the cycle, its direction.
#[derive(Clone, Copy)]
pub struct Use {
    pub face: u32,
    pub cycle: usize,
    pub step: usize,
    pub back: bool,
}

// How the two uses of an edge lie that can be uncut: of an open edge in two faces or in one cycle, of a closed one in two faces.
#[derive(Clone, Copy)]
pub enum Between {
    TwoFaces,
    OneCycle,
    Rings,
}

// How many uses, 3 for more than 2, and the first two.
#[derive(Clone, Copy)]
pub struct Uses {
    pub count: usize,
    pub one: Use,
    pub two: Use,
}

// The uses by what was passed over, and the place where the steps of the rest begin.
#[derive(Clone, Copy)]
pub struct Past {
    pub uses: Uses,
    pub place: usize,
}

fn add_use(x: Uses, u: Use) -> Uses
    ensures { result ≡ add_use x u }
{
    let n = x.count;
    if n == 0 {
        return Uses {
            count: 1,
            one: u,
            two: u,
        };
    }
    let a = x.one;
    if n == 1 {
        return Uses {
            count: 2,
            one: a,
            two: u,
        };
    }
    let b = x.two;
    Uses {
        count: 3,
        one: a,
        two: b,
    }
}

// The use of e by the step s, if there is one.
fn step_use(x: Uses, e: u32, s: u32, face: u32, cycle: usize, step: usize) -> Uses
    ensures { result ≡ foldl one_use x (step_uses e face cycle step (halfedge_of s ∷ [])) }
{
    let a = s / 2;
    let b = s % 2;
    if e == a {
        let u = Use {
            face: face,
            cycle: cycle,
            step: step,
            back: b == 1,
        };
        return add_use(x, u);
    }
    x
}

// The uses of e by m steps from a place on.
fn path_uses(
    steps: &[u32; 2048],
    from: usize,
    m: usize,
    e: u32,
    face: u32,
    cycle: usize,
    x0: Uses,
) -> Uses
    requires steps_len { length steps.now ≡ 2048 }
    requires m_bound { from + m ≤ 2048 }
    ensures { result ≡ foldl one_use x0 (step_uses e face cycle 0 (map halfedge_of (take m (drop from steps.now)))) }
{
    let mut x = x0;
    for i in 0..m {
        let s = steps[from + i];
        if e == s / 2 {
            x = step_use(x, e, s, face, cycle, i);
        }
    }
    x
}

// The uses of e by the cycle with the number c, whose places begin at from.
fn cycle_uses(
    steps: &[u32; 2048],
    from: usize,
    c: u32,
    e: u32,
    face: u32,
    cycle: usize,
    x: Uses,
) -> Uses
    requires steps_len { length steps.now ≡ 2048 }
    requires c_bound { from + width c ≤ 2048 }
    ensures { result ≡ foldl one_use x (step_uses e face cycle 0 (steps_of (cycle_of c (drop from steps.now)))) }
{
    if c == 0 {
        return x;
    }
    path_uses(steps, from, store::wide(c), e, face, cycle, x)
}

// The uses of e by a face's k cycles, from c0 on, whose places begin at p0, and the place after them.
fn face_uses(
    cycles: &[u32; 512],
    c0: usize,
    k: usize,
    steps: &[u32; 2048],
    p0: usize,
    e: u32,
    face: u32,
    x0: Uses,
) -> Past
    requires cycles_len { length cycles.now ≡ 512 }
    requires k_bound { c0 + k ≤ 512 }
    requires steps_len { length steps.now ≡ 2048 }
    requires cycles_bound { p0 + width_sum (take k (drop c0 cycles.now)) ≤ 2048 }
    ensures { result ≡ record { uses = foldl one_use x0 (cycle_uses e face 0 (cycles_from (take k (drop c0 cycles.now)) (drop p0 steps.now))); place = p0 + width_sum (take k (drop c0 cycles.now)) } }
{
    let mut x = x0;
    let mut from = p0;
    for i in 0..k {
        let c = cycles[c0 + i];
        x = cycle_uses(steps, from, c, e, face, i, x);
        from = from + store::places(1, c);
    }
    Past {
        uses: x,
        place: from,
    }
}

fn no_uses() -> Uses
    ensures { result ≡ no_uses }
{
    let u = Use {
        face: 0,
        cycle: 0,
        step: 0,
        back: false,
    };
    Uses {
        count: 0,
        one: u,
        two: u,
    }
}

// The uses of the edge e by the first n rows: how many, and the first two.
pub fn uses_of(
    ids: &[u32; 256],
    counts: &[u32; 256],
    n: usize,
    pool: &[u32; 512],
    steps: &[u32; 2048],
    e: u32,
) -> Uses
    requires { Faces n ids.now counts.now pool.now steps.now }
    ensures { result ≡ uses_two (row_uses e (take n ids.now) (take n counts.now) (cycles_from pool.now steps.now)) }
{
    let mut x = no_uses();
    let mut c0: usize = 0;
    let mut from: usize = 0;
    for i in 0..n {
        let k = store::wide(counts[i]);
        if 0 < k {
            let p = face_uses(pool, c0, k, steps, from, e, ids[i], x);
            x = p.uses;
            from = p.place;
            c0 = c0 + k;
        }
    }
    x
}
