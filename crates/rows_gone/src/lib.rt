#![tactic(auto)]

ghost use Rattle.std.specs.Prelude.{◌≡◌, true, false, ◌<◌, set, replicate};

// The flags of one dead row.
pub fn dead_row(row: usize) -> [bool; 256]
    requires { row < 256 }
    ensures { result ≡ set (replicate 256 false) row true }
{
    let mut dead = [false; 256];
    dead[row] = true;
    dead
}

// The flags of two dead rows.
pub fn dead_rows(a: usize, b: usize) -> [bool; 256]
    requires a_bound { a < 256 }
    requires b_bound { b < 256 }
    ensures { result ≡ set (set (replicate 256 false) a true) b true }
{
    let mut dead = dead_row(a);
    dead[b] = true;
    dead
}
