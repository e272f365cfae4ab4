#![tactic(auto)]

ghost use Rattle.std.specs.Prelude.{◌≡◌, eqb, ◌+◌, ◌<◌, ◌≤◌, take, length, ◌∷◌, [], cond};
ghost use Rattle.complex.specs.Lists.{one};
ghost use Rattle.rows_steps.specs.Swap.{swap_word, Wrote, one_for, two_for, none_for};

// What the two steps of one edge become: n steps each, at most 2.
#[derive(Clone, Copy)]
pub struct Swap {
    pub fore: u32,
    pub back: u32,
    pub n: usize,
    pub f1: u32,
    pub f2: u32,
    pub b1: u32,
    pub b2: u32,
}

fn put_two(out: &mut [u32], at: usize, n: usize, a: u32, b: u32)
    requires n_bound { n ≤ 2 }
    requires n_in_bounds { at + n ≤ length out.old }
    ensures { Wrote out.old at (take n (a ∷ b ∷ [])) out.new }
{
    if n == 0 {
        return;
    }
    out[at] = a;
    if n == 1 {
        return;
    }
    out[at + 1] = b;
}

pub fn put_step(out: &mut [u32], at: usize, s: u32, t: Swap) -> usize
    requires n_bound { t.n ≤ 2 }
    requires s_in_bounds { at + length (swap_word t s) ≤ length out.old }
    ensures value { result ≡ length (swap_word t s) }
    ensures wrote { Wrote out.old at (swap_word t s) out.new }
{
    if s == t.fore {
        put_two(out, at, t.n, t.f1, t.f2);
        return t.n;
    }
    if s == t.back {
        put_two(out, at, t.n, t.b1, t.b2);
        return t.n;
    }
    out[at] = s;
    1
}

pub fn number_of(c: u32, w: usize) -> u32
    requires { w ≤ 2048 }
    ensures { result ≡ cond (eqb c 0) 0 w }
{
    if c == 0 {
        return 0;
    }
    w as u32
}

pub fn one_for(e: u32, a: u32, flip: bool) -> Swap
    requires e_bound { e < 2147483648 }
    requires a_bound { a < 2147483648 }
    ensures { result ≡ one_for e a flip }
{
    Swap {
        n: 1,
        f1: a * 2 + flip as u32,
        b1: a * 2 + !flip as u32,
        ..none_for(e)
    }
}

pub fn two_for(e: u32, a: u32, b: u32) -> Swap
    requires e_bound { e < 2147483648 }
    requires a_bound { a < 2147483648 }
    requires b_bound { b < 2147483648 }
    ensures { result ≡ two_for e a b }
{
    Swap {
        n: 2,
        f1: a * 2,
        f2: b * 2,
        b1: b * 2 + 1,
        b2: a * 2 + 1,
        ..none_for(e)
    }
}

pub fn none_for(e: u32) -> Swap
    requires { e < 2147483648 }
    ensures { result ≡ none_for e }
{
    Swap {
        fore: e * 2,
        back: e * 2 + 1,
        n: 0,
        f1: 0,
        f2: 0,
        b1: 0,
        b2: 0,
    }
}
