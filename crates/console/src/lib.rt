#![tactic(auto)]

// Standard input and output of the programs: a read or a write that fails is told.
ghost use Rattle.std.specs.Prelude.{◌≤◌, length};

use std::io::Read;

// How many bytes were read, and whether a read failed.
#[derive(Clone, Copy)]
pub struct Input {
    pub count: usize,
    pub failed: bool,
}

// One read: none, if what is read has ended.
fn read_part(from: &mut impl Read, part: &mut [u8]) -> Input
    ensures { result.count ≤ length part.new }
{
    match from.read(part) {
        Ok(count) => Input {
            count,
            failed: false,
        },
        Err(_) => Input {
            count: 0,
            failed: true,
        },
    }
}

// Reads until the space is full, what is read ends or a read fails.
pub fn read_all(from: &mut impl Read, space: &mut [u8]) -> Input
    ensures { result.count ≤ length space.new }
{
    let mut done: usize = 0;
    // Not a range: how much comes is only known when it has come.
    while done < space.len() {
        let r = read_part(from, &mut space[done..]);
        if r.count == 0 {
            return Input {
                count: done,
                failed: r.failed,
            };
        }
        done = done + r.count;
    }
    Input {
        count: done,
        failed: false,
    }
}

// Writes the first k bytes to standard output. False: the bytes are fewer, or a write failed.
pub fn give(rt: &impl Print, bytes: &[u8], k: usize) -> bool {
    match bytes.get(..k) {
        Some(part) => rt.write_all(part).is_ok(),
        None => false,
    }
}
