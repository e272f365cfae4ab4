#![tactic(auto)]

// The calls for programs in C and Rust. A slice crosses as a pointer and a length, a second result through a pointer. A no gives its
// number, 0 for all else save what 9 gives, and leaves the lent memory as it was.
ghost use Rattle.std.specs.Prelude.{◌≡◌, ◌≤◌, length};
ghost use Rattle.complex.specs.File.{read_file};
ghost use Rattle.complex.specs.Visits.{check_file};
ghost use Rattle.lent.specs.Arrays.{of_lists};
ghost use Rattle.lent_sound.specs.Visits.{check_on};
ghost use Rattle.call_open.specs.Taken.{ReadIn};
ghost use Rattle.call_asked.specs.Entries.{Begun, rest_on, star_on, euler_on, pieces_on, write_on};
ghost use Rattle.entry_command.specs.Commands.{CommandedIn};
ghost use Rattle.entry_check.specs.Verdicts.{verdict_as};
ghost use Rattle.entry_files.specs.Calls.{filled_as, star_at, euler_as, euler_at, pieces_as, pieces_at, again, checked_as};
ghost use Rattle.entry_file_run.specs.Runs.{run_as, run_at};
ghost use Rattle.dazolbei.specs.Blocks.{line_as, RunIn};

use lent::{SheetMut, SheetRef};

// ---- on a drawing's file

// Question 10: are the bytes, all of them, a sound drawing's file?
#[unsafe(no_mangle)]
pub extern "C" fn dz_open(file: &[u8]) -> u32
    ensures { result ≡ (read_file file.now).number }
{
    entry_files::open_number(file)
}

// The ids, rising, of the cells whose boundary holds the cell, in the buffer's first places.
#[unsafe(no_mangle)]
pub extern "C" fn dz_star(file: &[u8], id: u32, buffer: &mut [u32], count: &mut u32) -> u32
    ensures { filled_as result count.new buffer.new ≡ star_at file.now id buffer.old }
{
    entry_files::star(file, id, buffer, count)
}

// The Euler number.
#[unsafe(no_mangle)]
pub extern "C" fn dz_euler(file: &[u8], value: &mut i32) -> u32
    ensures { euler_as result value.new ≡ euler_at file.now }
{
    entry_files::euler(file, value)
}

// How many pieces there are.
#[unsafe(no_mangle)]
pub extern "C" fn dz_pieces(file: &[u8], pieces: &mut u32) -> u32
    ensures { pieces_as result pieces.new ≡ pieces_at file.now }
{
    entry_files::pieces(file, pieces)
}

// The file, read and written again, in the buffer's first places.
#[unsafe(no_mangle)]
pub extern "C" fn dz_write(file: &[u8], buffer: &mut [u8], count: &mut u32) -> u32
    ensures { filled_as result count.new buffer.new ≡ again file.now buffer.old }
{
    entry_files::write_again(file, buffer, count)
}

// The soundness test of the drawing of a file, which need not be sound: 1 or 0 for a yes or a no, and the count of cells visited. 10 where
// the bytes are not, all of them, a next id and cells that keep the ceilings.
#[unsafe(no_mangle)]
pub extern "C" fn dz_check(file: &[u8], sound: &mut u32, visited: &mut u32) -> u32
    ensures visited_after { checked_as result sound.new visited.new ≡ check_file file.now }
    ensures sound_bound { sound.new ≤ 1 }
{
    entry_files::check(file, sound, visited)
}

// Runs a script on the drawing of a file. Of each command five numbers go to the lines: number, first, new, removed and
// the length of the rest; the file of the drawing at the end goes to the first places of out.
#[unsafe(no_mangle)]
pub extern "C" fn dz_run(
    file: &[u8],
    script: &[u8],
    lines: &mut [u32],
    out: &mut [u8],
    commands: &mut u32,
    bytes: &mut u32,
) -> u32
    ensures { run_as result lines.new out.new commands.new bytes.new ≡ run_at file.now script.now lines.old out.old }
{
    entry_file_run::run(file, script, lines, out, commands, bytes)
}

// ---- on a caller's block: a next id, a number of cells and twelve arrays, of any contents

// The empty drawing. What the arrays hold is not asked.
#[unsafe(no_mangle)]
pub extern "C" fn dz_block_new(next: &mut u32, count: &mut usize)
    ensures { Begun next.new count.new }
{
    call_asked::begin(next, count);
}

// The drawing whose file the bytes are, and 0; or 10, and the block stays.
#[unsafe(no_mangle)]
pub extern "C" fn dz_block_open(
    next: &mut u32,
    count: &mut usize,
    ids: &mut [u32; 256],
    kinds: &mut [u32; 256],
    starts: &mut [u32; 256],
    ends: &mut [u32; 256],
    bends: &mut [u32; 256],
    counts: &mut [u32; 256],
    px: &mut [f64; 256],
    py: &mut [f64; 256],
    cycles: &mut [u32; 512],
    steps: &mut [u32; 2048],
    bx: &mut [f64; 2048],
    by: &mut [f64; 2048],
    file: &[u8],
) -> u32
    ensures { ReadIn file.now (of_lists next.old count.old ids.old kinds.old starts.old ends.old bends.old counts.old px.old py.old cycles.old steps.old bx.old by.old) (of_lists next.new count.new ids.new kinds.new starts.new ends.new bends.new counts.new px.new py.new cycles.new steps.new bx.new by.new) result }
{
    let mut sheet = SheetMut {
        next,
        count,
        ids,
        kinds,
        starts,
        ends,
        bends,
        counts,
        px,
        py,
        cycles,
        steps,
        bx,
        by,
    };
    call_read::read(&mut sheet, file)
}

// The command at the front of the script: its number, first, new and removed. On a no the block stays.
#[unsafe(no_mangle)]
pub extern "C" fn dz_block_command(
    next: &mut u32,
    count: &mut usize,
    ids: &mut [u32; 256],
    kinds: &mut [u32; 256],
    starts: &mut [u32; 256],
    ends: &mut [u32; 256],
    bends: &mut [u32; 256],
    counts: &mut [u32; 256],
    px: &mut [f64; 256],
    py: &mut [f64; 256],
    cycles: &mut [u32; 512],
    steps: &mut [u32; 2048],
    bx: &mut [f64; 2048],
    by: &mut [f64; 2048],
    script: &[u8],
    first: &mut u32,
    new: &mut u32,
    removed: &mut u32,
) -> u32
    ensures { CommandedIn (of_lists next.old count.old ids.old kinds.old starts.old ends.old bends.old counts.old px.old py.old cycles.old steps.old bx.old by.old) script.now (of_lists next.new count.new ids.new kinds.new starts.new ends.new bends.new counts.new px.new py.new cycles.new steps.new bx.new by.new) (line_as result first.new new.new removed.new) }
{
    let mut sheet = SheetMut {
        next,
        count,
        ids,
        kinds,
        starts,
        ends,
        bends,
        counts,
        px,
        py,
        cycles,
        steps,
        bx,
        by,
    };
    let l = entry_command::command(&mut sheet, script);
    *first = l.first;
    *new = l.new;
    *removed = l.removed;
    l.number
}

// How many bytes are left after the command at the front of the script: all of them at 1 and 2.
#[unsafe(no_mangle)]
pub extern "C" fn dz_block_rest(
    next: u32,
    count: usize,
    ids: &[u32; 256],
    kinds: &[u32; 256],
    starts: &[u32; 256],
    ends: &[u32; 256],
    bends: &[u32; 256],
    counts: &[u32; 256],
    px: &[f64; 256],
    py: &[f64; 256],
    cycles: &[u32; 512],
    steps: &[u32; 2048],
    bx: &[f64; 2048],
    by: &[f64; 2048],
    script: &[u8],
) -> usize
    ensures { result ≡ length (rest_on (of_lists next count ids.now kinds.now starts.now ends.now bends.now counts.now px.now py.now cycles.now steps.now bx.now by.now) script.now) }
{
    let view = SheetRef {
        next,
        count,
        ids,
        kinds,
        starts,
        ends,
        bends,
        counts,
        px,
        py,
        cycles,
        steps,
        bx,
        by,
    };
    let r = entry_rest::rest(&view, script);
    r.len()
}

// Runs a script on the block. Of each command five numbers go to the lines.
#[unsafe(no_mangle)]
pub extern "C" fn dz_block_run(
    next: &mut u32,
    count: &mut usize,
    ids: &mut [u32; 256],
    kinds: &mut [u32; 256],
    starts: &mut [u32; 256],
    ends: &mut [u32; 256],
    bends: &mut [u32; 256],
    counts: &mut [u32; 256],
    px: &mut [f64; 256],
    py: &mut [f64; 256],
    cycles: &mut [u32; 512],
    steps: &mut [u32; 2048],
    bx: &mut [f64; 2048],
    by: &mut [f64; 2048],
    script: &[u8],
    lines: &mut [u32],
    commands: &mut u32,
) -> u32
    ensures { RunIn (of_lists next.old count.old ids.old kinds.old starts.old ends.old bends.old counts.old px.old py.old cycles.old steps.old bx.old by.old) script.now lines.old (of_lists next.new count.new ids.new kinds.new starts.new ends.new bends.new counts.new px.new py.new cycles.new steps.new bx.new by.new) lines.new result commands.new }
{
    *commands = 0;
    let mut sheet = SheetMut {
        next,
        count,
        ids,
        kinds,
        starts,
        ends,
        bends,
        counts,
        px,
        py,
        cycles,
        steps,
        bx,
        by,
    };
    let Some(_) = call_asked::asked(&sheet.view()) else {
        return 1;
    };
    let no = entry_room::lines_no(script.len(), lines.len());
    if no != 0 {
        return no;
    }
    let n = entry_run::run_lines(&mut sheet, script, lines);
    *commands = n as u32;
    0
}

// The ids, rising, of the cells whose boundary holds the cell, in the buffer's first places.
#[unsafe(no_mangle)]
pub extern "C" fn dz_block_star(
    next: u32,
    count: usize,
    ids: &[u32; 256],
    kinds: &[u32; 256],
    starts: &[u32; 256],
    ends: &[u32; 256],
    bends: &[u32; 256],
    counts: &[u32; 256],
    px: &[f64; 256],
    py: &[f64; 256],
    cycles: &[u32; 512],
    steps: &[u32; 2048],
    bx: &[f64; 2048],
    by: &[f64; 2048],
    id: u32,
    buffer: &mut [u32],
    found: &mut u32,
) -> u32
    ensures { filled_as result found.new buffer.new ≡ star_on (of_lists next count ids.now kinds.now starts.now ends.now bends.now counts.now px.now py.now cycles.now steps.now bx.now by.now) id buffer.old }
{
    let view = SheetRef {
        next,
        count,
        ids,
        kinds,
        starts,
        ends,
        bends,
        counts,
        px,
        py,
        cycles,
        steps,
        bx,
        by,
    };
    let s = entry_star::star(&view, id, buffer);
    *found = s.count as u32;
    s.number
}

// The Euler number.
#[unsafe(no_mangle)]
pub extern "C" fn dz_block_euler(
    next: u32,
    count: usize,
    ids: &[u32; 256],
    kinds: &[u32; 256],
    starts: &[u32; 256],
    ends: &[u32; 256],
    bends: &[u32; 256],
    counts: &[u32; 256],
    px: &[f64; 256],
    py: &[f64; 256],
    cycles: &[u32; 512],
    steps: &[u32; 2048],
    bx: &[f64; 2048],
    by: &[f64; 2048],
    value: &mut i32,
) -> u32
    ensures { euler_as result value.new ≡ euler_on (of_lists next count ids.now kinds.now starts.now ends.now bends.now counts.now px.now py.now cycles.now steps.now bx.now by.now) }
{
    let view = SheetRef {
        next,
        count,
        ids,
        kinds,
        starts,
        ends,
        bends,
        counts,
        px,
        py,
        cycles,
        steps,
        bx,
        by,
    };
    let e = entry_euler::euler(&view);
    let v = e.value;
    *value = v;
    e.number
}

// How many pieces there are.
#[unsafe(no_mangle)]
pub extern "C" fn dz_block_pieces(
    next: u32,
    count: usize,
    ids: &[u32; 256],
    kinds: &[u32; 256],
    starts: &[u32; 256],
    ends: &[u32; 256],
    bends: &[u32; 256],
    counts: &[u32; 256],
    px: &[f64; 256],
    py: &[f64; 256],
    cycles: &[u32; 512],
    steps: &[u32; 2048],
    bx: &[f64; 2048],
    by: &[f64; 2048],
    pieces: &mut u32,
) -> u32
    ensures { pieces_as result pieces.new ≡ pieces_on (of_lists next count ids.now kinds.now starts.now ends.now bends.now counts.now px.now py.now cycles.now steps.now bx.now by.now) }
{
    let view = SheetRef {
        next,
        count,
        ids,
        kinds,
        starts,
        ends,
        bends,
        counts,
        px,
        py,
        cycles,
        steps,
        bx,
        by,
    };
    let p = entry_pieces::pieces(&view);
    *pieces = p.count;
    p.number
}

// The soundness test as a call of its own, which refuses nothing: 1 or 0 for a yes or a no, and the count of cells visited.
#[unsafe(no_mangle)]
pub extern "C" fn dz_block_check(
    next: u32,
    count: usize,
    ids: &[u32; 256],
    kinds: &[u32; 256],
    starts: &[u32; 256],
    ends: &[u32; 256],
    bends: &[u32; 256],
    counts: &[u32; 256],
    px: &[f64; 256],
    py: &[f64; 256],
    cycles: &[u32; 512],
    steps: &[u32; 2048],
    bx: &[f64; 2048],
    by: &[f64; 2048],
    sound: &mut u32,
    visited: &mut u32,
)
    ensures visited_after { verdict_as sound.new visited.new ≡ check_on (of_lists next count ids.now kinds.now starts.now ends.now bends.now counts.now px.now py.now cycles.now steps.now bx.now by.now) }
    ensures sound_bound { sound.new ≤ 1 }
{
    let view = SheetRef {
        next,
        count,
        ids,
        kinds,
        starts,
        ends,
        bends,
        counts,
        px,
        py,
        cycles,
        steps,
        bx,
        by,
    };
    let v = entry_check::check(&view);
    entry_check::tell(v, sound, visited);
}

// The drawing's file, in the buffer's first places.
#[unsafe(no_mangle)]
pub extern "C" fn dz_block_write(
    next: u32,
    count: usize,
    ids: &[u32; 256],
    kinds: &[u32; 256],
    starts: &[u32; 256],
    ends: &[u32; 256],
    bends: &[u32; 256],
    counts: &[u32; 256],
    px: &[f64; 256],
    py: &[f64; 256],
    cycles: &[u32; 512],
    steps: &[u32; 2048],
    bx: &[f64; 2048],
    by: &[f64; 2048],
    buffer: &mut [u8],
    bytes: &mut u32,
) -> u32
    ensures { filled_as result bytes.new buffer.new ≡ write_on (of_lists next count ids.now kinds.now starts.now ends.now bends.now counts.now px.now py.now cycles.now steps.now bx.now by.now) buffer.old }
{
    let view = SheetRef {
        next,
        count,
        ids,
        kinds,
        starts,
        ends,
        bends,
        counts,
        px,
        py,
        cycles,
        steps,
        bx,
        by,
    };
    view.known();
    let w = entry_write::write(&view, buffer);
    *bytes = w.count as u32;
    w.number
}
