#![tactic(auto)]

ghost use Rattle.std.specs.Prelude.{◌≡◌, ◌+◌, ◌≤◌, take, drop, length};
ghost use Rattle.complex.specs.Uses.{counting};
ghost use Rattle.complex.specs.Unglue.{copy_of, new_lone};
ghost use Rattle.complex.specs.Sound.{ids_end};
ghost use Rattle.store.specs.View.{width, width_sum, cycles_from};
ghost use Rattle.rows_uses.specs.Uses.{uses_in};
ghost use Rattle.rows_copied.specs.Copying.{copied, word_use, copied_word, uses_after, copied_run, copied_path, copied_vertex, Changed};

use rows_uses::Use;

// The first use keeps i, the later ones get the ids from next on.
fn copy_of(i: u32, next: u32, k: usize) -> u32
    requires next_le_ids_end { next ≤ ids_end }
    requires k_le_ids_end { k ≤ ids_end }
    ensures { result ≡ copy_of i next k }
{
    if k == 0 {
        return i;
    }
    next + ((k - 1) as u32)
}

fn copy_word(s: u32, i: u32, next: u32, k: usize) -> u32
    requires next_le_ids_end { next ≤ ids_end }
    requires k_le_ids_end { k ≤ ids_end }
    ensures { result ≡ copied_word i next k s }
{
    if i != s / 2 {
        return s;
    }
    copy_of(i, next, k) * 2 + s % 2
}

// How often a step is of edge i.
fn word_use(i: u32, s: u32) -> usize
    ensures value { result ≡ word_use i s }
    ensures upper_bound { result ≤ 1 }
{
    if i == s / 2 {
        return 1;
    }
    0
}

fn next_use(each: bool, i: u32, k: usize, s: u32) -> usize
    requires { k ≤ ids_end }
    ensures { result ≡ uses_after each i k s }
{
    if each {
        return k + word_use(i, s);
    }
    k
}

// The steps of i among the first n get copies: each its own, or all the same.
fn copy_run(l: &mut [u32], n: usize, each: bool, i: u32, next: u32, k0: usize)
    requires n_in_bounds { n ≤ length l.old }
    requires next_le_ids_end { next ≤ ids_end }
    requires n_bound { k0 + n ≤ ids_end }
    ensures l_after { take n l.new ≡ copied_run each i next k0 (take n l.old) }
    ensures l_unchanged { drop n l.new ≡ drop n l.old }
{
    let mut k = k0;
    for j in 0..n {
        let s = l[j];
        l[j] = copy_word(s, i, next, k);
        k = next_use(each, i, k, s);
    }
}

fn copy_path(c: u32, l: &mut [u32], each: bool, i: u32, next: u32, k: usize)
    requires c_in_bounds { width c ≤ length l.old }
    requires next_le_ids_end { next ≤ ids_end }
    requires c_bound { k + width c ≤ ids_end }
    ensures { Changed (copied_path each i next k) c l.old l.new }
{
    if c == 0 {
        return;
    }
    copy_run(l, store::wide(c), each, i, next, k);
}

fn copy_vertex(v: u32, i: u32, next: u32, k: usize) -> u32
    requires next_le_ids_end { next ≤ ids_end }
    requires k_le_ids_end { k ≤ ids_end }
    ensures { result ≡ copied_vertex i next k v }
{
    if i == v {
        return copy_of(i, next, k);
    }
    v
}

fn copy_lone(c: u32, l: &mut [u32], i: u32, next: u32, k: usize)
    requires c_in_bounds { width c ≤ length l.old }
    requires next_le_ids_end { next ≤ ids_end }
    requires k_le_ids_end { k ≤ ids_end }
    ensures { Changed (new_lone i next k) c l.old l.new }
{
    if c != 0 {
        return;
    }
    l[0] = copy_vertex(l[0], i, next, k);
}

// The cycle of number c at the front of l, with copies where it uses i.
fn copy_cycle(u: Use, c: u32, l: &mut [u32], i: u32, next: u32, k: usize)
    requires c_in_bounds { width c ≤ length l.old }
    requires next_le_ids_end { next ≤ ids_end }
    requires c_bound { k + width c ≤ ids_end }
    ensures { Changed (copied u i next k) c l.old l.new }
{
    match u {
        Use::Step => copy_path(c, l, true, i, next, k),
        Use::Ring => copy_path(c, l, false, i, next, k),
        Use::Lone => copy_lone(c, l, i, next, k),
    }
}

// The first n cycles, with copies of i for all their uses of it but the first, counted from k0.
pub fn copy_cycles(
    u: Use,
    cycles: &[u32],
    n: usize,
    steps: &mut [u32],
    i: u32,
    next: u32,
    k0: usize,
)
    requires n_in_bounds { n ≤ length cycles.now }
    requires cycles_in_bounds { width_sum (take n cycles.now) ≤ length steps.old }
    requires next_le_ids_end { next ≤ ids_end }
    requires steps_bound { k0 + length steps.old ≤ ids_end }
    ensures { cycles_from (take n cycles.now) steps.new ≡ counting (uses_in u i) (copied u i next) k0 (cycles_from (take n cycles.now) steps.old) }
{
    let mut k = k0;
    let mut from: usize = 0;
    for j in 0..n {
        let c = cycles[j];
        let m = rows_uses::cycle_uses(u, c, &steps[from..], i);
        copy_cycle(u, c, &mut steps[from..], i, next, k);
        k = k + m;
        from = from + store::places(1, c);
    }
}
