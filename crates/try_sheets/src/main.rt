#![tactic(auto)]

// The sheets that are tried, the slips to exclude, and what is lent: a call of the core for each line of standard input,
// whose letters its first lines explain, and a line for its answer.
use std::io;
use store::Drawing;

// The star in the first of four places, and what all four hold after it.
fn tell_star(rt: &impl Print, d: Drawing, id: u8, n: u8) -> io::Result<()> {
    let mut places = [7u32; 4];
    if 4 < n {
        return Ok(());
    }
    let all = n as usize;
    let c = register::star(d, id as u32, &mut places[..all]);
    try_text::tell(rt, c.number as u64)?;
    try_text::tell(rt, c.count as u64)?;
    print!(rt; ",")?;
    try_text::tell_line(rt, places[0], places[1], places[2], places[3])
}

// The file in places, and what those from one to another hold after it.
fn tell_file(rt: &impl Print, d: Drawing, places: &mut [u8], from: u8, end: u8) -> io::Result<()> {
    let w = register::write(d, places);
    try_text::tell(rt, w.number as u64)?;
    try_text::tell(rt, w.count as u64)?;
    print!(rt; ",")?;
    try_text::tell_bytes(rt, places, from as usize, end as usize)
}

// The number of the command of the bytes, and what is left of them behind it.
fn tell_rest(rt: &impl Print, d: Drawing, s: &[u8]) -> io::Result<()> {
    let a = register::command(d, s);
    let left = register::rest(d, s);
    try_text::tell(rt, a.number as u64)?;
    print!(rt; ", rest")?;
    try_text::tell_bytes(rt, left, 0, left.len())
}

// The drawing in the bytes of a file: its next id and how many cells it has.
fn tell_read(rt: &impl Print, s: &[u8]) -> io::Result<()> {
    let a = register::read(s);
    let e = a.drawing;
    try_text::tell(rt, a.number as u64)?;
    let next = e.next;
    let cells = e.count;
    print!(rt; ", next {next} cells {cells}")
}

// A call that leaves the drawing alone: what it answers, and what it leaves in the buffer.
fn show(
    rt: &impl Print,
    letter: u8,
    d: Drawing,
    s: &[u8],
    first: u8,
    second: u8,
    third: u8,
) -> io::Result<()> {
    match letter {
        b's' => tell_star(rt, d, first, second),
        b'w' => {
            let mut places = [7u8; 256];
            tell_file(rt, d, &mut places[..first as usize], second, third)
        }
        b'e' => {
            let e = register::euler(d);
            try_text::tell(rt, e.number as u64)?;
            try_text::tell_euler(rt, e.value)
        }
        b'p' => {
            let p = register::pieces(d);
            try_text::tell(rt, p.number as u64)?;
            try_text::tell(rt, p.count as u64)
        }
        b'r' => tell_rest(rt, d, s),
        _ => tell_read(rt, s),
    }
}

// The drawing after a call, whose text and answer are told.
fn call(
    rt: &impl Print,
    letter: u8,
    text: &[u8],
    d: Drawing,
    s: &[u8],
    first: u8,
    second: u8,
    third: u8,
) -> io::Result<Drawing> {
    rt.write_all(text)?;
    if letter == b'c' {
        let a = register::command(d, s);
        try_text::tell_line(rt, a.number, a.first, a.new, a.removed)?;
        println!(rt)?;
        return Ok(a.drawing);
    }
    show(rt, letter, d, s, first, second, third)?;
    println!(rt)?;
    Ok(d)
}

// The drawing after a line.
fn try_line(rt: &impl Print, d: Drawing, line: &[u8]) -> io::Result<Drawing> {
    let Some(end) = line.iter().position(|b| *b == b':') else {
        return Ok(d);
    };
    if end == 0 {
        return Ok(d);
    }
    let letter = line[0];
    if letter == b'#' {
        return Ok(d);
    }
    if letter == b'n' {
        return Ok(register::empty());
    }
    if letter == b'z' {
        let mut unsound = d;
        unsound.next = 0;
        return Ok(unsound);
    }
    let mut space = [0u8; 4096];
    let n = try_text::bytes_of(&line[end + 1..], &mut space);
    let first = space[0];
    let second = space[1];
    let third = space[2];
    let s = &space[..n];
    if letter == b'-' {
        let a = register::command(d, s);
        return Ok(a.drawing);
    }
    call(rt, letter, &line[2..end + 1], d, s, first, second, third)
}

fn try_lines(rt: &impl Print, s: &[u8]) -> io::Result<()> {
    let mut d = register::empty();
    for line in s.split(|b| *b == b'\n') {
        d = try_line(rt, d, line)?;
    }
    Ok(())
}

fn main(rt: HostRuntime) -> io::Result<()> {
    let mut space = [0u8; 65536];
    let n = console::read_all(&mut rt.reader(), &mut space).count;
    try_lines(&rt, &space[..n])
}
