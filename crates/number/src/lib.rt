#![tactic(auto)]

ghost use Rattle.std.specs.Prelude.{◌≡◌, ◌+◌, ◌≤◌, ◌<◌, length};
ghost use Rattle.std.proofs.lemmas.List.Edits.{sets};
ghost use Rattle.number.specs.Numbers.{number_says, number_at, numbers_end, spell};

// The number that stands at a place, and the place after it, if one does. Groups of seven bits, low
// group first, the top bit set on all but the last byte; at most three bytes, the shortest form alone.
pub fn read_number(s: &[u8], at: usize) -> Option<(u32, usize)>
    ensures { number_says result ≡ number_at s.now at }
{
    if s.len() <= at {
        return None;
    }
    let a = s[at] as u32;
    if a < 128 {
        return Some((a, at + 1));
    }
    let second = at + 1;
    if s.len() <= second {
        return None;
    }
    let b = s[second] as u32;
    if b == 0 {
        return None;
    }
    if b < 128 {
        return Some((a - 128 + 128 * b, second + 1));
    }
    let third = second + 1;
    if s.len() <= third {
        return None;
    }
    let c = s[third] as u32;
    if c == 0 {
        return None;
    }
    if 128 <= c {
        return None;
    }
    Some((a - 128 + 128 * (b - 128 + 128 * c), third + 1))
}

// Writes n at a place, and returns the place after it.
pub fn put_number(n: u32, out: &mut [u8], at: usize) -> usize
    requires n_lt_numbers_end { n < numbers_end }
    requires n_in_bounds { at + length (spell n) ≤ length out.old }
    ensures value { result ≡ at + length (spell n) }
    ensures out_after { out.new ≡ sets out.old at (spell n) }
{
    let mut rest = n;
    let mut place = at;
    // Not a count: the number falls by 128 times a byte.
    while 128 <= rest {
        out[place] = (rest % 128 + 128) as u8;
        rest = rest / 128;
        place += 1;
    }
    out[place] = rest as u8;
    place + 1
}

// How many bytes n takes.
pub fn number_width(n: u32) -> usize
    requires { n < numbers_end }
    ensures { result ≡ length (spell n) }
{
    let mut rest = n;
    let mut width: usize = 1;
    // Not a count: the number falls by 128 times a byte.
    while 128 <= rest {
        rest = rest / 128;
        width += 1;
    }
    width
}
