#![tactic(auto)]

ghost use Rattle.std.specs.Prelude.{◌≡◌, length};
ghost use Rattle.complex.specs.Sound.{cells_most, cycles_most, steps_most, bends_most};

// The length of a slice. An array that is lent as one has the length that its type says.
fn numbers(s: &[u32]) -> usize {
    s.len()
}

fn floats(s: &[f64]) -> usize {
    s.len()
}

// The length of a lent array: what its type says, as a fact.
pub fn rows_long(a: &[u32; 256]) -> usize
    ensures { length a.now ≡ cells_most }
{
    numbers(a)
}

pub fn places_long(a: &[f64; 256]) -> usize
    ensures { length a.now ≡ cells_most }
{
    floats(a)
}

pub fn cycles_long(a: &[u32; 512]) -> usize
    ensures { length a.now ≡ cycles_most }
{
    numbers(a)
}

pub fn steps_long(a: &[u32; 2048]) -> usize
    ensures { length a.now ≡ steps_most }
{
    numbers(a)
}

pub fn bends_long(a: &[f64; 2048]) -> usize
    ensures { length a.now ≡ bends_most }
{
    floats(a)
}
