#![tactic(auto)]

// What the programs that try things read and tell: files by name, bytes in hexadecimal, numbers.
ghost use Rattle.std.specs.Prelude.{◌≤◌, length};

use std::rt::Files;
use std::{fs, io};

// A number, a space before it.
pub fn tell(rt: &impl Print, n: u64) -> io::Result<()> {
    print!(rt; " {n}")
}

// Four numbers, as those of a command's answer.
pub fn tell_line(
    rt: &impl Print,
    number: u32,
    first: u32,
    new: u32,
    removed: u32,
) -> io::Result<()> {
    print!(rt; " {number} {first} {new} {removed}")
}

// An Euler number, where it is 0 or 2.
pub fn tell_euler(rt: &impl Print, v: i32) -> io::Result<()> {
    match v {
        0 => print!(rt; " 0"),
        2 => print!(rt; " 2"),
        _ => print!(rt; " another"),
    }
}

// The bytes from a place to another, as many as there are, in hexadecimal, a space before each.
pub fn tell_bytes(rt: &impl Print, s: &[u8], from: usize, end: usize) -> io::Result<()> {
    let part = &s[..end.min(s.len())];
    for b in part.iter().skip(from) {
        print!(rt; " {b:02x}")?;
    }
    Ok(())
}

// The value of a hexadecimal digit.
fn digit(c: u8) -> u8 {
    if c < 58 { c % 16 } else { (c % 16 + 9) % 16 }
}

fn byte(high: u8, low: u8) -> u8 {
    digit(high) % 16 * 16 + digit(low) % 16
}

// The bytes of a text in hexadecimal, a space before each; how many there are.
pub fn bytes_of(text: &[u8], out: &mut [u8]) -> usize
    ensures { result ≤ length out.new }
{
    let n = (text.len() / 3).min(out.len());
    for i in 0..n {
        out[i] = byte(text[3 * i + 1], text[3 * i + 2]);
    }
    n
}

// Reads the file of a name into space, and answers how many bytes it has.
pub fn load<R: Files + Eprint>(rt: &R, name: &[u8], space: &mut [u8]) -> usize
    ensures { result ≤ length space.new }
{
    let Ok(text) = str::from_utf8(name) else {
        let _ = rt.eprintln("a file's name is no text");
        return 0;
    };
    match fs::open(rt, text) {
        Ok(mut file) => console::read_all(&mut file, space).count,
        Err(e) => {
            let _ = rt.eprintln(format_args!("{text}: {e}"));
            0
        }
    }
}

// Whether the first bytes of what was made stand in what is stored, from a place on.
pub fn stands(made: &[u8], count: usize, stored: &[u8], from: usize) -> bool {
    match (made.get(..count), stored.get(from..)) {
        (Some(part), Some(rest)) => rest.starts_with(part),
        _ => false,
    }
}
