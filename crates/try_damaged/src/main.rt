#![tactic(auto)]

// Asks whether a sound drawing and damaged ones are sound, made by the lines of standard input, whose letters its first lines explain, and
// prints a line for each: yes or no, and the count of cells visited.
use coordinate::Position;
use std::io;
use store::{Cell, Drawing, Shape};

// The number in four bytes, low byte first.
fn number(a: u8, b: u8, c: u8, d: u8) -> u32 {
    a as u32 + 256 * (b as u32 + 256 * (c as u32 + 256 * (d as u32)))
}

// The position in the bytes after the first; too few are the position of zeros.
fn position(s: &[u8]) -> Position {
    let Some((p, _)) = coordinate::read_position(s, 1) else {
        return Position { x: 0.0, y: 0.0 };
    };
    p
}

fn shape(letter: u8, a: u32, b: u32, c: u32, p: Position) -> Shape {
    if letter == b'v' {
        return Shape::Vertex(p);
    }
    if letter == b'o' {
        return Shape::Open {
            start: a,
            end: b,
            bends: c,
        };
    }
    if letter == b'c' {
        return Shape::Closed { bends: a };
    }
    Shape::Face { cycles: a }
}

// The drawing with one value changed: the letter says which, the row where.
fn changed(d: Drawing, letter: u8, row: u8, a: u32, b: u32, c: u32, p: Position) -> Drawing {
    let mut e = d;
    let at = row as usize;
    if letter == b'n' {
        e.next = a;
        return e;
    }
    if letter == b'm' {
        return crowd(e, a as usize);
    }
    if letter == b'k' {
        e.count = a as usize + 4294967296 * (b as usize);
        return e;
    }
    if letter == b'y' {
        e.cycles[at] = a;
        return e;
    }
    if letter == b's' {
        e.steps[at] = a;
        return e;
    }
    if letter == b'b' {
        e.bends[at] = p;
        return e;
    }
    let old = e.cells[at];
    if letter == b'i' {
        let same = old.shape;
        e.cells[at] = Cell { id: a, shape: same };
        return e;
    }
    let other = shape(letter, a, b, c, p);
    e.cells[at] = Cell {
        id: old.id,
        shape: other,
    };
    e
}

// The drawing whose first n cells, up to 256, are vertices at zero, with ids from 1 on.
fn crowd(d: Drawing, n: usize) -> Drawing {
    let mut e = d;
    for i in 0..n.min(256) {
        let at_zero = Shape::Vertex(Position { x: 0.0, y: 0.0 });
        e.cells[i] = Cell {
            id: i as u32 + 1,
            shape: at_zero,
        };
    }
    e.next = 257;
    e.count = n;
    e
}

// Whether two calls that ask question 1 say what the soundness test says; beside a 1 the count of pieces is 0.
fn agree(sound: bool, d: Drawing) -> bool {
    let a = register::euler(d);
    let p = register::pieces(d);
    if sound {
        return a.number == 0 && p.number == 0;
    }
    a.number == 1 && p.number == 1 && p.count == 0
}

// Whether the drawing is sound, and the count of cells visited. A call that asks question 1 must say the same.
fn tell(rt: &impl Print, text: &[u8], d: Drawing) -> io::Result<()> {
    rt.write_all(text)?;
    let v = register::check(d);
    if v.sound {
        print!(rt; " yes")?;
    } else {
        print!(rt; " no")?;
    }
    try_text::tell(rt, v.visited as u64)?;
    if !agree(v.sound, d) {
        print!(rt; " (question 1 is answered otherwise)")?;
    }
    println!(rt)
}

// The drawing with the value changed that a letter and bytes in hexadecimal name.
fn changed_by(d: Drawing, letter: u8, text: &[u8]) -> Drawing {
    let mut space = [0u8; 4096];
    let n = try_text::bytes_of(text, &mut space);
    let row = space[0];
    let a = number(space[1], space[2], space[3], space[4]);
    let b = number(space[5], space[6], space[7], space[8]);
    let c = number(space[9], space[10], space[11], space[12]);
    let p = position(&space[..n]);
    changed(d, letter, row, a, b, c, p)
}

// The drawing after a line: with one value changed, or the whole one again after a question.
fn try_line(rt: &impl Print, whole: Drawing, d: Drawing, line: &[u8]) -> io::Result<Drawing> {
    let Some(end) = line.iter().position(|b| *b == b':') else {
        return Ok(d);
    };
    if end == 0 {
        return Ok(d);
    }
    let letter = line[0];
    if letter == b'#' {
        return Ok(d);
    }
    if letter == b'e' {
        return Ok(register::empty());
    }
    if letter == b'?' {
        tell(rt, &line[2..end + 1], d)?;
        return Ok(whole);
    }
    Ok(changed_by(d, letter, &line[end + 1..]))
}

// The drawing after the lines.
fn try_lines(rt: &impl Print, whole: Drawing, s: &[u8]) -> io::Result<Drawing> {
    let mut d = whole;
    for line in s.split(|b| *b == b'\n') {
        d = try_line(rt, whole, d, line)?;
    }
    Ok(d)
}

// The lines before the first `=` make the whole drawing of the empty one.
fn main(rt: HostRuntime) -> io::Result<()> {
    let mut space = [0u8; 65536];
    let n = console::read_all(&mut rt.reader(), &mut space).count;
    let s = &space[..n];
    let cut = s.iter().position(|b| *b == b'=').unwrap_or(n);
    let whole = try_lines(&rt, register::empty(), &s[..cut])?;
    try_lines(&rt, whole, &s[cut..])?;
    Ok(())
}
