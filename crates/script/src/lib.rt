#![tactic(auto)]

ghost use Rattle.std.specs.Prelude.{◌≡◌, true, map, ◌+◌, ◌≤◌, min, length};
ghost use Rattle.std.proofs.lemmas.List.Edits.{sets};
ghost use Rattle.number.specs.Readers.{spread};
ghost use Rattle.number.specs.Numbers.{read_number};
ghost use Rattle.complex.specs.Lists.{total, holds, places};
ghost use Rattle.complex.specs.Sound.{step_count};
ghost use Rattle.complex.specs.Decode.{read_cycle};
ghost use Rattle.store.specs.Places.{num_of, cycle_words};
ghost use Rattle.decode_parts.specs.Lists.{FieldAt, numbers_read, cycles_read, Reaches, Stand};
ghost use Rattle.script.specs.Walks.{below, Marks, Copied, ScriptRoom};

// Walks along the lists that a command leaves in its script: the moved cycles of a cut, and the
// cycles of a face.

// ---- one thing of a list that stands in the script

// A number, and the place after it.
#[derive(Clone, Copy)]
pub struct Taken {
    pub value: u32,
    pub next: usize,
}

pub fn take_number(script: &[u8], at: usize) -> Taken
    requires { Stand read_number script.now at 1 }
    ensures { FieldAt read_number script.now at result.value result.next }
{
    let (value, next) = number::read_number(script, at).unwrap();
    Taken { value, next }
}

// The place after a cycle.
pub fn cycle_end(script: &[u8], at: usize) -> usize
    requires { Stand read_cycle script.now at 1 }
    ensures { Reaches read_cycle script.now at 1 result }
{
    decode_parts::skip_cycle(script, at).unwrap()
}

// ---- moved cycles

// Whether they rise strictly, from 0 on and below a limit.
pub fn moved_rise(script: &[u8], place: usize, count: u32, limit: u32) -> bool
    requires { Stand read_number script.now place count }
    ensures { result ≡ places 0 (numbers_read script.now place count) limit }
{
    let mut at = place;
    let mut least: u32 = 0;
    for _ in 0..count {
        let taken = take_number(script, at);
        let cycle = taken.value;
        if cycle < least {
            return false;
        }
        if limit <= cycle {
            return false;
        }
        least = cycle + 1;
        at = taken.next;
    }
    true
}

pub fn moved_has(script: &[u8], place: usize, count: u32, cycle: u32) -> bool
    requires { Stand read_number script.now place count }
    ensures { result ≡ holds cycle (numbers_read script.now place count) }
{
    let mut at = place;
    for _ in 0..count {
        let taken = take_number(script, at);
        let other = taken.value;
        if cycle == other {
            return true;
        }
        at = taken.next;
    }
    false
}

// A flag for each cycle of a face.
pub fn mark_moved(script: &[u8], place: usize, count: u32, flags: &mut [bool; 512])
    requires stand { Stand read_number script.now place count }
    requires count_value { below 512 (numbers_read script.now place count) ≡ true }
    ensures { Marks (numbers_read script.now place count) flags.new }
{
    *flags = [false; 512];
    let mut at = place;
    for _ in 0..count {
        let taken = take_number(script, at);
        let i = store::wide(taken.value);
        flags[i] = true;
        at = taken.next;
    }
}

// ---- the cycles of a face

// How many steps they have together, a lone vertex counting as one; max + 1 if there are more than
// max. Where the last cycle ends is not asked.
pub fn count_cycle_steps(script: &[u8], first: usize, count: u32, max: u32) -> usize
    requires { Stand read_cycle script.now first count }
    ensures { result ≡ min (max + 1) (total step_count (cycles_read script.now first count)) }
{
    let most = store::wide(max);
    let mut at = first;
    let mut sum: usize = 0;
    for i in 0..count {
        let size = take_number(script, at);
        let n = store::places(1, size.value);
        if most - sum < n {
            return most + 1;
        }
        if i + 1 == count {
            return sum + n;
        }
        sum += n;
        at = cycle_end(script, at);
    }
    sum
}

// Numbers go from a place of the script to a place of an array; the place after them comes back.
fn copy_numbers(script: &[u8], at: usize, count: usize, out: &mut [u32; 2048], to: usize) -> usize
    requires stand { Stand read_number script.now at count }
    requires count_bound { to + count ≤ 2048 }
    requires out_len { length out.old ≡ 2048 }
    ensures { Copied script.now at count to out.old out.new result }
{
    let mut place = at;
    for row in to..to + count {
        let taken = take_number(script, place);
        out[row] = taken.value;
        place = taken.next;
    }
    place
}

// The cycles of a face go to lent arrays, their lengths from a row of `counts` on and their places
// from a place of `steps` on; the place after them comes back.
pub fn put_cycles(
    script: &[u8],
    first: usize,
    count: u32,
    counts: &mut [u32; 512],
    row: usize,
    steps: &mut [u32; 2048],
    place: usize,
) -> usize
    requires script_room { ScriptRoom script.now first count counts.old row steps.old place }
    requires counts_len { length counts.old ≡ 512 }
    requires steps_len { length steps.old ≡ 2048 }
    ensures value { result ≡ place + total step_count (cycles_read script.now first count) }
    ensures counts_after { counts.new ≡ sets counts.old row (map num_of (cycles_read script.now first count)) }
    ensures steps_after { steps.new ≡ sets steps.old place (spread cycle_words (cycles_read script.now first count)) }
{
    let mut at = first;
    let mut used = place;
    for i in row..row + store::wide(count) {
        let size = take_number(script, at);
        let m = size.value;
        counts[i] = m;
        let width = store::places(1, m);
        let start = size.next;
        at = copy_numbers(script, start, width, steps, used);
        used += width;
    }
    used
}
