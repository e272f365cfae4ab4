#![tactic(auto)]

// Numbers and lines as text in a lent buffer.
ghost use Rattle.std.specs.Prelude.{◌≡◌, ◌++◌, ◌∷◌, [], ◌+◌, ◌≤◌, nat_abs, length};
ghost use Rattle.std.proofs.lemmas.List.Edits.{sets};
ghost use Rattle.complex.specs.Program.{decimal, signed, line_text};
ghost use Rattle.text.specs.Texts.{line_most, last_most, TextPut, end_text};

// A number in decimal, from a place on; the place after it.
fn put_decimal(n: u32, out: &mut [u8], at: usize) -> usize
    requires { at + length (decimal n) ≤ length out.old }
    ensures value { result ≡ at + length (decimal n) }
    ensures out_after { out.new ≡ sets out.old at (decimal n) }
{
    if n < 10 {
        out[at] = (48 + n) as u8;
        return at + 1;
    }
    let end = put_decimal(n / 10, out, at);
    out[end] = (48 + n % 10) as u8;
    end + 1
}

// A number without its sign.
fn magnitude(v: i32) -> u32
    ensures { result ≡ nat_abs v }
{
    if v < 0 {
        return (0 - (v as i64)) as u32;
    }
    v as u32
}

// A number, then a mark; the place after them.
fn put_field(n: u32, mark: u8, out: &mut [u8], at: usize) -> usize
    requires { at + length (decimal n) + 1 ≤ length out.old }
    ensures { TextPut out.old at (decimal n ++ mark ∷ []) 11 out.new result }
{
    let end = put_decimal(n, out, at);
    out[end] = mark;
    end + 1
}

// A line per command: number, first, new, removed; the place after it.
pub fn put_line(number: u32, first: u32, new: u32, removed: u32, out: &mut [u8], at: usize) -> usize
    requires { at + line_most ≤ length out.old }
    ensures { TextPut out.old at (line_text (record { number = number; first = first; new = new; removed = removed })) line_most out.new result }
{
    let a = put_field(number, b' ', out, at);
    let b = put_field(first, b' ', out, a);
    let c = put_field(new, b' ', out, b);
    put_field(removed, b'\n', out, c)
}

// Bytes, from a place on; the place after them.
pub fn put_bytes(text: &[u8], out: &mut [u8], at: usize) -> usize
    requires { at + length text.now ≤ length out.old }
    ensures { TextPut out.old at text.now (length text.now) out.new result }
{
    for i in 0..text.len() {
        out[at + i] = text[i];
    }
    at + text.len()
}

// A hyphen before a negative number; the place after it.
fn put_signed(v: i32, out: &mut [u8], at: usize) -> usize
    requires { at + length (signed v) ≤ length out.old }
    ensures { TextPut out.old at (signed v) 11 out.new result }
{
    let n = magnitude(v);
    if v < 0 {
        out[at] = b'-';
        return put_decimal(n, out, at + 1);
    }
    put_decimal(n, out, at)
}

// The end line: the Euler number and the live cells; the place after it.
pub fn put_end(v: i32, cells: u32, out: &mut [u8], at: usize) -> usize
    requires { at + length (end_text v cells) ≤ length out.old }
    ensures { TextPut out.old at (end_text v cells) last_most out.new result }
{
    let a = put_bytes(b"euler ", out, at);
    let b = put_signed(v, out, a);
    let c = put_bytes(b" cells ", out, b);
    put_field(cells, b'\n', out, c)
}
