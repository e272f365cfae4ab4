#![tactic(auto)]

ghost use Rattle.std.specs.Prelude.{◌≡◌, ◌≤◌, ◌++◌, reverse, length, take, drop};
ghost use Rattle.std.proofs.Math.Seq.{slice};
ghost use Rattle.kernel_bends.specs.Turned.{turned, rotated};

// The numbers from one place up to another, turned round.
pub fn reverse(l: &mut [f64], from: usize, to: usize)
    requires from_le_to { from ≤ to }
    requires to_in_bounds { to ≤ length l.old }
    ensures { l.new ≡ turned from to l.old }
{
    l[from..to].reverse();
}

// The numbers of from .. mid go after those of mid .. to.
pub fn rotate(l: &mut [f64], from: usize, mid: usize, to: usize)
    requires from_le_mid { from ≤ mid }
    requires mid_le_to { mid ≤ to }
    requires to_in_bounds { to ≤ length l.old }
    ensures { l.new ≡ rotated from mid to l.old }
{
    if from == mid {
        return;
    }
    if mid == to {
        return;
    }
    reverse(l, from, mid);
    reverse(l, mid, to);
    reverse(l, from, to);
}
