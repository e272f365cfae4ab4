#![tactic(auto)]

ghost use Rattle.std.specs.Prelude.{◌≡◌, ◌≤◌, take, length};
ghost use Rattle.std.proofs.Math.IntN.{sub_ℕ};
ghost use Rattle.rows_marks.specs.Marks.{sum_of};
ghost use Rattle.rows_euler.specs.Shares.{gain_in, loss_in, euler_in};

// What Euler answers: its number, and the Euler number.
#[derive(Clone, Copy)]
pub struct EulerNumber {
    pub number: u32,
    pub value: i32,
}

fn gain_of(kind: u32) -> u32
    ensures { result ≡ gain_in kind }
{
    if kind == 0 {
        return 1;
    }
    if kind == 3 {
        return 2;
    }
    0
}

fn loss_of(kind: u32, cycles: u32) -> u32
    ensures { result ≡ loss_in kind cycles }
{
    if kind == 1 {
        return 1;
    }
    cycles
}

fn difference(a: u32, b: u32) -> i32
    requires { (a ≤ 1024) × (b ≤ 1024) }
    ensures { result ≡ sub_ℕ a b }
{
    (a as i32) - (b as i32)
}

// The Euler number of the first n rows.
pub fn euler_rows(kinds: &[u32; 256], counts: &[u32; 256], n: usize) -> i32
    requires n_bound { n ≤ 256 }
    requires kinds_len { length kinds.now ≡ 256 }
    requires counts_len { length counts.now ≡ 256 }
    requires counts_bound { sum_of (take n counts.now) ≤ 512 }
    ensures { result ≡ euler_in (take n kinds.now) (take n counts.now) }
{
    let mut up: u32 = 0;
    let mut down: u32 = 0;
    for i in 0..n {
        let k = kinds[i];
        up = up + gain_of(k);
        down = down + loss_of(k, counts[i]);
    }
    difference(up, down)
}
