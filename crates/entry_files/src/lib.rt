#![tactic(auto)]

// The calls on a drawing's file, each on arrays of its own. A no gives its number, 0 for all else save what 9 gives, and leaves the lent
// buffers as they were.
ghost use Rattle.std.specs.Prelude.{◌≡◌, ◌≤◌};
ghost use Rattle.complex.specs.File.{read_file};
ghost use Rattle.complex.specs.Visits.{check_file};
ghost use Rattle.entry_files.specs.Calls.{filled_as, star_at, euler_as, euler_at, pieces_as, pieces_at, again, checked_as};

use lent::{SheetBuf, lend};

// Question 10: are the bytes, all of them, a sound drawing's file?
pub fn open_number(file: &[u8]) -> u32
    ensures { result ≡ (read_file file.now).number }
{
    let mut own = SheetBuf::empty();
    let mut sheet = lend!(own);
    let Some(_) = call_open::open(&mut sheet, file) else {
        return 10;
    };
    0
}

// The ids, rising, of the cells whose boundary holds the cell, in the buffer's first places.
pub fn star(file: &[u8], id: u32, buffer: &mut [u32], count: &mut u32) -> u32
    ensures { filled_as result count.new buffer.new ≡ star_at file.now id buffer.old }
{
    let mut own = SheetBuf::empty();
    let mut sheet = lend!(own);
    let Some(t) = call_open::open(&mut sheet, file) else {
        *count = 0;
        return 10;
    };
    let s = call_star::star(&sheet.view(), t, id, buffer);
    *count = s.count as u32;
    s.number
}

// The Euler number.
pub fn euler(file: &[u8], value: &mut i32) -> u32
    ensures { euler_as result value.new ≡ euler_at file.now }
{
    let mut own = SheetBuf::empty();
    let mut sheet = lend!(own);
    let Some(_) = call_open::open(&mut sheet, file) else {
        *value = 0;
        return 10;
    };
    let v = call_euler::euler(&sheet.view());
    *value = v;
    0
}

// How many pieces there are.
pub fn pieces(file: &[u8], pieces: &mut u32) -> u32
    ensures { pieces_as result pieces.new ≡ pieces_at file.now }
{
    let mut own = SheetBuf::empty();
    let mut sheet = lend!(own);
    let Some(_) = call_open::open(&mut sheet, file) else {
        *pieces = 0;
        return 10;
    };
    let left = call_pieces::pieces(&sheet.view());
    *pieces = left;
    0
}

// The file, read and written again, in the buffer's first places.
pub fn write_again(file: &[u8], buffer: &mut [u8], count: &mut u32) -> u32
    ensures { filled_as result count.new buffer.new ≡ again file.now buffer.old }
{
    let mut own = SheetBuf::empty();
    let mut sheet = lend!(own);
    let Some(t) = call_open::open(&mut sheet, file) else {
        *count = 0;
        return 10;
    };
    let w = call_write::write(&sheet.view(), t, buffer);
    *count = w.count as u32;
    w.number
}

// The soundness test of the drawing of a file, which need not be sound: whether it is, as 1 or 0, and the count of cells visited. 10 where the
// bytes are not, all of them, a next id and cells that keep the ceilings.
pub fn check(file: &[u8], sound: &mut u32, visited: &mut u32) -> u32
    ensures visited_after { checked_as result sound.new visited.new ≡ check_file file.now }
    ensures sound_bound { sound.new ≤ 1 }
{
    let mut own = SheetBuf::empty();
    let mut sheet = lend!(own);
    let Some((next, n, _)) = call_load::load(file, &mut sheet, true) else {
        *sound = 0;
        *visited = 0;
        return 10;
    };
    *sheet.next = next;
    *sheet.count = n;
    let v = entry_check::check(&sheet.view());
    entry_check::tell(v, sound, visited);
    0
}
