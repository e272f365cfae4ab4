#![tactic(auto)]

// Replays scripts: what is printed for each, and the file of the drawing at the end, against what is stored. The arguments
// name three files of the data folder for each script: the script, what is printed, the drawing's file.
ghost use Rattle.std.specs.Prelude.{◌≤◌, length};
ghost use Rattle.call_asked.specs.Entries.{EmptyIn};
ghost use Rattle.lent.specs.Sheets.{arrays, Same};

use lent::{SheetBuf, SheetMut, lend};
use std::env::{Env, FillError};
use std::io;
use std::rt::Files;

// Of the scripts replayed so far: how many, their commands, and how many texts and files differ from what is stored.
#[derive(Clone, Copy)]
struct Tally {
    scripts: u64,
    commands: u64,
    differ: u64,
}

// How many arguments there are, the name of the program among them.
fn count_arguments(rt: &impl Env) -> usize {
    let mut text = [0u8; 4096];
    for i in 0..usize::MAX {
        if let Err(FillError::NotPresent) = rt.arg(i, &mut text) {
            return i;
        }
    }
    usize::MAX
}

// Reads the file that an argument names into space, and answers how many bytes it has.
fn load(rt: &(impl Env + Files + Eprint), argument: usize, space: &mut [u8]) -> usize
    ensures { result ≤ length space.new }
{
    let mut name = [0u8; 4096];
    let k = rt.arg(argument, &mut name).unwrap_or(0);
    try_text::load(rt, &name[..k], space)
}

// One more where what was made is not what the argument's file stores.
fn differing(rt: &impl Print, argument: usize, same: bool, differ: u64) -> io::Result<u64> {
    if same {
        return Ok(differ);
    }
    println!(rt; "{argument}: the argument's file differs")?;
    Ok(differ.wrapping_add(1))
}

// Whether what is printed for a script from the empty drawing, a piece at a time, is what is stored.
fn same_text(sheet: &mut SheetMut<'_>, script: &[u8], stored: &[u8]) -> bool
    requires { EmptyIn (arrays sheet.old) }
    ensures same { Same sheet.old sheet.new }
{
    let mut out = [0u8; 4096];
    let mut at: usize = 0;
    let mut from: usize = 0;
    loop {
        let p = printing::piece(sheet, script, at, &mut out);
        if !try_text::stands(&out, p.count, stored, from) {
            return false;
        }
        from = from.wrapping_add(p.count);
        if p.last {
            return from == stored.len();
        }
        at = p.at;
    }
}

// What is printed for a script, against a stored text.
fn same_printed(script: &[u8], stored: &[u8]) -> bool {
    let mut own = SheetBuf::empty();
    let mut sheet = lend!(own);
    same_text(&mut sheet, script, stored)
}

// The drawing's file after a script, against the stored one. Zeros follow each in its buffer.
fn replay_file(
    rt: &(impl Env + Files + Print + Eprint),
    script: &[u8],
    argument: usize,
    t: Tally,
) -> io::Result<Tally> {
    let r = run::run(script);
    let mut made = [0u8; 65536];
    let w = register::write(r.drawing, &mut made);
    let mut stored = [0u8; 65536];
    let n = load(rt, argument, &mut stored);
    let same = w.number == 0 && w.count == n && made == stored;
    Ok(Tally {
        scripts: t.scripts,
        commands: t.commands.wrapping_add(r.commands as u64),
        differ: differing(rt, argument, same, t.differ)?,
    })
}

// Replays a script. One that is too long has no drawing.
fn replay(
    rt: &(impl Env + Files + Print + Eprint),
    script: usize,
    printed: usize,
    stored: usize,
    t: Tally,
) -> io::Result<Tally> {
    let mut space = printing::script_space();
    let n = load(rt, script, &mut space);
    let mut text = [0u8; 65536];
    let k = load(rt, printed, &mut text);
    let same = same_printed(&space[..n], &text[..k]);
    let t = Tally {
        scripts: t.scripts.wrapping_add(1),
        commands: t.commands,
        differ: differing(rt, printed, same, t.differ)?,
    };
    if 65536 < n {
        return Ok(t);
    }
    replay_file(rt, &space[..n], stored, t)
}

fn replay_all(rt: &(impl Env + Files + Print + Eprint)) -> io::Result<Tally> {
    let mut t = Tally {
        scripts: 0,
        commands: 0,
        differ: 0,
    };
    for i in 0..count_arguments(rt) / 3 {
        t = replay(rt, 3 * i + 1, 3 * i + 2, 3 * i + 3, t)?;
    }
    Ok(t)
}

fn main(rt: HostRuntime) -> io::Result<()> {
    let t = replay_all(&rt)?;
    let scripts = t.scripts;
    let commands = t.commands;
    let differ = t.differ;
    println!(rt; "{scripts} scripts, {commands} commands, {differ} differ")
}
