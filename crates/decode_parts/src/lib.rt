#![tactic(auto)]

// Lists in a script: where each ends. A list stays in the script, held as a count and the place of its
// first element.
ghost use Rattle.std.specs.Prelude.{◌≡◌, ◌≤◌, length, drop};
ghost use Rattle.number.specs.Readers.{times};
ghost use Rattle.number.specs.Numbers.{read_number};
ghost use Rattle.complex.specs.Decode.{read_cycle};
ghost use Rattle.decode_parts.specs.Lists.{skip_says, skipped, BendsAt};

// The place after so many numbers, if they stand there.
pub fn skip_numbers(script: &[u8], at: usize, count: u32) -> Option<usize>
    requires { at ≤ length script.now }
    ensures { skip_says result ≡ skipped (length script.now) (times read_number count (drop at script.now)) }
{
    let mut place = at;
    for _ in 0..count {
        let Some((_, next)) = number::read_number(script, place) else {
            return None;
        };
        place = next;
    }
    Some(place)
}

// The place after a cycle, if one stands there: a length m, then a vertex if m = 0, else m steps.
pub fn skip_cycle(script: &[u8], at: usize) -> Option<usize>
    ensures { skip_says result ≡ skipped (length script.now) (read_cycle (drop at script.now)) }
{
    let Some((m, first)) = number::read_number(script, at) else {
        return None;
    };
    if m == 0 {
        return skip_numbers(script, first, 1);
    }
    skip_numbers(script, first, m)
}

// The place after so many cycles, if they stand there.
pub fn skip_cycles(script: &[u8], at: usize, count: u32) -> Option<usize>
    requires { at ≤ length script.now }
    ensures { skip_says result ≡ skipped (length script.now) (times read_cycle count (drop at script.now)) }
{
    let mut place = at;
    for _ in 0..count {
        let Some(next) = skip_cycle(script, place) else {
            return None;
        };
        place = next;
    }
    Some(place)
}

// The bend list at a place, if one stands there: how many bends, the place of the first and the place
// after the last, in the whole script.
pub fn bends_at(script: &[u8], at: usize) -> Option<(u32, usize, usize)>
    requires { at ≤ length script.now }
    ensures { BendsAt script.now at result }
{
    let Some((count, first, end)) = bends::read_bends(&script[at..]) else {
        return None;
    };
    Some((count, at + first, at + end))
}
