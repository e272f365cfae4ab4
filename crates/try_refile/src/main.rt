#![tactic(auto)]

// Reads drawings' files, writes each again and compares the bytes: as they are stored, and damaged in three ways that must get 10. A
// line of standard input is a letter for the way, a space and a file's name.
ghost use Rattle.std.specs.Prelude.{◌≤◌, length};

use std::io;
use std::rt::Files;

// The bytes as they are, without the last (`-`), with one more (`+`), or with next id 0 (`0`): how many there are.
fn damaged(letter: u8, space: &mut [u8], n: usize) -> usize
    requires { n ≤ length space.old }
    ensures { result ≤ length space.new }
{
    if n == 0 {
        return n;
    }
    if letter == b'0' {
        space[0] = 0;
        return n;
    }
    if letter == b'-' {
        return n - 1;
    }
    if letter == b'+' {
        if n < space.len() {
            return n + 1;
        }
    }
    n
}

// What reading and writing again answer, and whether the bytes are the same.
fn try_line(rt: &(impl Files + Print + Eprint), line: &[u8]) -> io::Result<()> {
    if line.len() < 2 {
        return Ok(());
    }
    let mut space = [0u8; 65536];
    let k = try_text::load(rt, &line[2..], &mut space);
    let n = damaged(line[0], &mut space, k);
    let a = register::read(&space[..n]);
    let mut again = [0u8; 65536];
    let w = register::write(a.drawing, &mut again);
    rt.write_all(line)?;
    try_text::tell(rt, a.number as u64)?;
    try_text::tell(rt, w.number as u64)?;
    try_text::tell(rt, w.count as u64)?;
    if w.count == n && try_text::stands(&again, n, &space, 0) {
        println!(rt; " same")
    } else {
        println!(rt; " other")
    }
}

fn try_lines(rt: &(impl Files + Print + Eprint), s: &[u8]) -> io::Result<()> {
    for line in s.split(|b| *b == b'\n') {
        try_line(rt, line)?;
    }
    Ok(())
}

fn main(rt: HostRuntime) -> io::Result<()> {
    let mut space = [0u8; 65536];
    let n = console::read_all(&mut rt.reader(), &mut space).count;
    try_lines(&rt, &space[..n])
}
