#![tactic(auto)]

// What the program `edit` prints, piece by piece, in a lent buffer.
ghost use Rattle.std.specs.Prelude.{◌≡◌, ◌+◌, ◌≤◌, ◌<◌, T, length};
ghost use Rattle.store.specs.View.{sheet_of};
ghost use Rattle.lent.specs.Arrays.{held_by, sound_arrays};
ghost use Rattle.text.specs.Texts.{line_most, last_most, TextPut};
ghost use Rattle.printing.specs.Lines.{last_text, LinesPut};
ghost use Rattle.printing.specs.Texts.{LongPut, Pieced};
ghost use Rattle.lent.specs.Sheets.{arrays, seen, Same};

use lent::{SheetMut, SheetRef};

const SCRIPT_MOST: usize = 65536;
// The most bytes of a command's line.
const LINE_MOST: usize = 44;
// The most bytes of the end line.
const LAST_MOST: usize = 35;

// Zeros for a script: a byte more than the longest.
pub fn script_space() -> [u8; 65537]
    ensures { 65537 ≡ length result }
{
    [0; 65537]
}

// A piece of what is printed: the place where the script goes on, how many bytes it has, and whether it is the last.
#[derive(Clone, Copy)]
pub struct Printed {
    pub at: usize,
    pub count: usize,
    pub last: bool,
}

// The place of the script after the lines that were put, and the place after them.
#[derive(Clone, Copy)]
struct Lined {
    at: usize,
    end: usize,
}

// The lines of a script's commands from a place on, until no byte is left, one is not read, or the next might not fit.
fn put_lines(sheet: &mut SheetMut<'_>, script: &[u8], from: usize, out: &mut [u8]) -> Lined
    requires { T (sound_arrays (arrays sheet.old)) }
    ensures lines_put { LinesPut (arrays sheet.old) script.now from (arrays sheet.new) out.old out.new result.at result.end }
    ensures out_len_bound { result.at < length script.now → length out.new < result.end + line_most }
    ensures same { Same sheet.old sheet.new }
{
    let mut at = from;
    let mut end: usize = 0;
    // Not a range: each command says where the next begins.
    while at < script.len() {
        if out.len() - end < LINE_MOST {
            return Lined { at, end };
        }
        let t = entry_run::step_at(sheet, script, at);
        let l = t.line;
        end = text::put_line(l.number, l.first, l.new, l.removed, out, end);
        at = t.end;
    }
    Lined { at, end }
}

// The end line of the drawing in sound arrays; the place after it.
fn put_last(view: &SheetRef<'_>, out: &mut [u8], at: usize) -> usize
    requires t { T (sound_arrays (seen view.now)) }
    requires last_most_in_bounds { at + last_most ≤ length out.old }
    ensures { TextPut out.old at (last_text (sheet_of (held_by (seen view.now)))) last_most out.new result }
{
    view.known();
    let e = call_euler::euler(view);
    text::put_end(e, view.count as u32, out, at)
}

// What is printed for a script that is too long, if it fits.
fn too_long(at: usize, out: &mut [u8]) -> Printed
    ensures { LongPut at out.old out.new result }
{
    if out.len() < 9 {
        return Printed {
            at,
            count: 0,
            last: false,
        };
    }
    let n = text::put_bytes(b"too long\n", out, 0);
    Printed {
        at,
        count: n,
        last: true,
    }
}

// The next piece of what is printed for a script, from a place of it on: the lines of as many commands as surely fit, and after the
// last of them the end line if that surely fits.
pub fn piece(sheet: &mut SheetMut<'_>, script: &[u8], at: usize, out: &mut [u8]) -> Printed
    requires { T (sound_arrays (arrays sheet.old)) }
    ensures pieced { Pieced (arrays sheet.old) script.now at (arrays sheet.new) out.old out.new result }
    ensures same { Same sheet.old sheet.new }
{
    if SCRIPT_MOST < script.len() {
        return too_long(at, out);
    }
    let p = put_lines(sheet, script, at, out);
    let end = p.end;
    if p.at < script.len() {
        return Printed {
            at: p.at,
            count: end,
            last: false,
        };
    }
    if out.len() - end < LAST_MOST {
        return Printed {
            at: p.at,
            count: p.end,
            last: false,
        };
    }
    let k = put_last(&sheet.view(), out, end);
    Printed {
        at: p.at,
        count: k,
        last: true,
    }
}
