#![tactic(auto)]

// The calls that a caller makes. Each takes any struct and any bytes, and asks nothing of them beforehand. A struct is taken apart into
// arrays, the call is made on the arrays, and the struct is put together again.
ghost use Rattle.std.specs.Prelude.{◌≡◌};
ghost use Rattle.sound.specs.Visits.{check_of};
ghost use Rattle.rows_star.specs.Calls.{star_answered as queried, star_of};
ghost use Rattle.rows_euler.specs.Calls.{euler_answered, euler_of};
ghost use Rattle.rows_pieces.specs.Calls.{pieces_answered, pieces_of};
ghost use Rattle.file_write.specs.Writes.{write_answered as written, write_of};
ghost use Rattle.file_read.specs.Outcome.{FileRead};
ghost use Rattle.entry_check.specs.Verdicts.{verdict_by};
ghost use Rattle.struct_empty.specs.Entries.{Empty};
ghost use Rattle.register.specs.Entries.{Commanded, rest_of};

use answer::Answer;
use entry_check::Verdict;
use file_read::ReadAnswer;
use file_write::Written;
use lent::{SheetBuf, lend};
use rows_euler::EulerNumber;
use rows_pieces::PieceCount;
use rows_star::Counted;
use store::Drawing;

// A drawing with next id 1 and no cell.
pub fn empty() -> Drawing
    ensures { Empty result }
{
    struct_empty::empty()
}

// The command at the front of the script: the number of the first no, or 0; the new and the removed; the drawing.
pub fn command(d: Drawing, script: &[u8]) -> Answer
    ensures { Commanded d script.now result }
{
    let mut own = SheetBuf::empty();
    let mut sheet = lend!(own);
    door::take_apart(d, &mut sheet);
    let l = entry_command::command(&mut sheet, script);
    let e = door::put_together(&sheet.view());
    Answer {
        number: l.number,
        first: l.first,
        new: l.new,
        removed: l.removed,
        drawing: e,
    }
}

// The bytes after the command at the front of the script, or all of them at 1 and 2: a part of the caller's slice.
pub fn rest(d: Drawing, script: &[u8]) -> &[u8]
    ensures { result.now ≡ rest_of d script.now }
{
    let mut own = SheetBuf::empty();
    let mut sheet = lend!(own);
    door::take_apart(d, &mut sheet);
    entry_rest::rest(&sheet.view(), script)
}

// The ids, rising, of the cells whose boundary holds the cell, in the buffer's first places.
pub fn star(d: Drawing, id: u32, buffer: &mut [u32]) -> Counted
    ensures { queried result buffer.new ≡ star_of d id buffer.old }
{
    let mut own = SheetBuf::empty();
    let mut sheet = lend!(own);
    door::take_apart(d, &mut sheet);
    entry_star::star(&sheet.view(), id, buffer)
}

pub fn euler(d: Drawing) -> EulerNumber
    ensures { euler_answered result ≡ euler_of d }
{
    let mut own = SheetBuf::empty();
    let mut sheet = lend!(own);
    door::take_apart(d, &mut sheet);
    entry_euler::euler(&sheet.view())
}

// How many pieces the drawing falls into: cells that boundaries link, through chains.
pub fn pieces(d: Drawing) -> PieceCount
    ensures { pieces_answered result ≡ pieces_of d }
{
    let mut own = SheetBuf::empty();
    let mut sheet = lend!(own);
    door::take_apart(d, &mut sheet);
    entry_pieces::pieces(&sheet.view())
}

// The soundness test as a call of its own: yes or no, and the count of cells visited. It refuses nothing.
pub fn check(d: Drawing) -> Verdict
    ensures { verdict_by result ≡ check_of d }
{
    let mut own = SheetBuf::empty();
    let mut sheet = lend!(own);
    door::take_apart(d, &mut sheet);
    entry_check::check(&sheet.view())
}

// The drawing's file, in the buffer's first places.
pub fn write(d: Drawing, buffer: &mut [u8]) -> Written
    ensures { written result buffer.new ≡ write_of d buffer.old }
{
    let mut own = SheetBuf::empty();
    let mut sheet = lend!(own);
    door::take_apart(d, &mut sheet);
    entry_write::write(&sheet.view(), buffer)
}

// The drawing of a file.
pub fn read(bytes: &[u8]) -> ReadAnswer
    ensures { FileRead bytes.now result }
{
    struct_read::read(bytes)
}
