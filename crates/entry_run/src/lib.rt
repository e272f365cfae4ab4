#![tactic(auto)]

// A script on lent arrays: one command of it, and all of them one after another.
ghost use Rattle.std.specs.Prelude.{◌+◌, ◌*◌, ◌≤◌, ◌<◌, T, length};
ghost use Rattle.lent.specs.Arrays.{sound_arrays};
ghost use Rattle.entry_told.specs.Told.{line_width, lengths_end};
ghost use Rattle.entry_run.specs.Turns.{SteppedIn};
ghost use Rattle.entry_run.specs.Runs.{TurnedIn, RanIn};
ghost use Rattle.lent.specs.Sheets.{arrays, Same};

use lent::{Line, SheetMut};

// How many numbers are told of a command.
const LINE_WIDTH: usize = 5;

// What a command of a script gave: its line, the length of the rest, and the place where the run goes on.
#[derive(Clone, Copy)]
pub struct Turn {
    pub line: Line,
    pub left: usize,
    pub end: usize,
}

// One command of a script, the one at a place; the run goes on after it, at the script's end if it is not read. Question 1 need not be
// asked again: the sums alone are counted.
pub fn step_at(sheet: &mut SheetMut<'_>, script: &[u8], at: usize) -> Turn
    requires t { T (sound_arrays (arrays sheet.old)) }
    requires at_in_bounds { at < length script.now }
    ensures stepped_in { SteppedIn (arrays sheet.old) script.now at (arrays sheet.new) result }
    ensures same { Same sheet.old sheet.new }
{
    let left = &script[at..];
    let Some((c, taken)) = decode::decode(left) else {
        let two = Line {
            number: 2,
            first: 0,
            new: 0,
            removed: 0,
        };
        return Turn {
            line: two,
            left: left.len(),
            end: script.len(),
        };
    };
    let t = lent_sums::sums(&sheet.view());
    let done = entry_dispatch::obey(sheet, t, left, c);
    let l = lent::line_from(done);
    let end = at + taken;
    Turn {
        line: l,
        left: script.len() - end,
        end,
    }
}

// One command of a script, the one at a place, and its five numbers; the place where the run goes on.
fn put_turn(
    sheet: &mut SheetMut<'_>,
    script: &[u8],
    at: usize,
    lines: &mut [u32],
    place: usize,
) -> usize
    requires t { T (sound_arrays (arrays sheet.old)) }
    requires script_in_bounds { length script.now < lengths_end }
    requires at_in_bounds { at < length script.now }
    requires line_width_in_bounds { place + line_width ≤ length lines.old }
    ensures turned_in { TurnedIn (arrays sheet.old) script.now at (arrays sheet.new) result lines.old place lines.new }
    ensures same { Same sheet.old sheet.new }
{
    let t = step_at(sheet, script, at);
    let l = t.line;
    entry_told::put_line(
        l.number,
        l.first,
        l.new,
        l.removed,
        t.left as u32,
        lines,
        place,
    );
    t.end
}

// Runs a script's commands, each on the arrays as the one before it left them, until no byte is left or one is not read: how many there
// were. Their numbers stand in the first places of the lines.
pub fn run_lines(sheet: &mut SheetMut<'_>, script: &[u8], lines: &mut [u32]) -> usize
    requires t { T (sound_arrays (arrays sheet.old)) }
    requires script_in_bounds { length script.now < lengths_end }
    requires script_in_bounds_2 { line_width * length script.now ≤ length lines.old }
    ensures ran_in { RanIn (arrays sheet.old) script.now lines.old (arrays sheet.new) lines.new result }
    ensures same { Same sheet.old sheet.new }
{
    let mut at: usize = 0;
    let mut commands: usize = 0;
    // Not a range: each command says where the next begins.
    while at < script.len() {
        at = put_turn(sheet, script, at, lines, LINE_WIDTH * commands);
        commands = commands + 1;
    }
    commands
}
