#![tactic(auto)]

// The cells of lent rows as bytes: how many they take, and where they are put.
ghost use Rattle.std.specs.Prelude.{◌≡◌, ◌+◌, ◌<◌, ◌≤◌, length, take, get_or};
ghost use Rattle.number.specs.Readers.{spread};
ghost use Rattle.complex.specs.File.{cell_bytes, file_of};
ghost use Rattle.complex.specs.Lists.{total};
ghost use Rattle.complex.specs.Sound.{cells_most};
ghost use Rattle.store.specs.View.{cycles_from, cells_of, sheet_of};
ghost use Rattle.file_parts.specs.Parts.{BytesPut, positions_from};
ghost use Rattle.file_write.specs.Places.{AllReady};
ghost use Rattle.file_length.specs.Widths.{Heads, head_width};
ghost use Rattle.lent.specs.Arrays.{held_by};
ghost use Rattle.lent.specs.Replies.{Ready};
ghost use Rattle.call_cells.specs.Rows.{cells_in, past_cell};
ghost use Rattle.lent.specs.Sheets.{seen};

use answer::Totals;
use file_write::Place;
use lent::SheetRef;
use store::{Cell, Shape};

// The cell in a row.
pub fn cell_at(view: &SheetRef<'_>, row: usize) -> Cell
    requires row_lt_cells_most { row < cells_most }
    requires ids_len { length view.now.ids.now ≡ cells_most }
    ensures { result ≡ get_or (cells_in view.now.ids.now view.now.kinds.now view.now.starts.now view.now.ends.now view.now.bends.now view.now.counts.now view.now.px.now view.now.py.now) row past_cell }
{
    let id = view.ids[row];
    let kind = view.kinds[row];
    if kind == 0 {
        let p = lent::vertex_at(view.px, view.py, row);
        return Cell {
            id,
            shape: Shape::Vertex(p),
        };
    }
    if kind == 1 {
        return Cell {
            id,
            shape: Shape::Open {
                start: view.starts[row],
                end: view.ends[row],
                bends: view.bends[row],
            },
        };
    }
    if kind == 2 {
        let bends = view.bends[row];
        return Cell {
            id,
            shape: Shape::Closed { bends },
        };
    }
    Cell {
        id,
        shape: Shape::Face {
            cycles: view.counts[row],
        },
    }
}

// The bytes that the first n cells take besides bends and cycles.
fn heads(view: &SheetRef<'_>, n: usize) -> usize
    requires { Heads (cells_in view.now.ids.now view.now.kinds.now view.now.starts.now view.now.ends.now view.now.bends.now view.now.counts.now view.now.px.now view.now.py.now) n }
    ensures { result ≡ total head_width (take n (cells_in view.now.ids.now view.now.kinds.now view.now.starts.now view.now.ends.now view.now.bends.now view.now.counts.now view.now.px.now view.now.py.now)) }
{
    let mut sum: usize = 0;
    for i in 0..n {
        let c = cell_at(view, i);
        sum = sum + file_length::head_length(c);
    }
    sum
}

// The bytes of the file.
pub fn file_length(view: &SheetRef<'_>, t: Totals) -> usize
    requires { Ready (seen view.now) t }
    ensures { result ≡ length (file_of (sheet_of (held_by (seen view.now)))) }
{
    let cycles = view.cycles;
    let steps = view.steps;
    let h = heads(view, view.count);
    let c = file_length::widths(cycles, t.cycles);
    let s = file_length::widths(steps, t.steps);
    let a = number::number_width(view.next);
    let b = number::number_width(view.count as u32);
    a + (b + (h + ((c + s) + 16 * t.bends)))
}

// The first n cells; each is lent what is left of the buffer.
pub fn put_cells(view: &SheetRef<'_>, n: usize, buffer: &mut [u8], start: usize) -> usize
    requires all_ready { AllReady (cells_in view.now.ids.now view.now.kinds.now view.now.starts.now view.now.ends.now view.now.bends.now view.now.counts.now view.now.px.now view.now.py.now) n view.now.bx.now view.now.by.now view.now.cycles.now view.now.steps.now }
    requires by_in_bounds { start + length (spread cell_bytes (cells_of (take n (cells_in view.now.ids.now view.now.kinds.now view.now.starts.now view.now.ends.now view.now.bends.now view.now.counts.now view.now.px.now view.now.py.now)) (cycles_from view.now.cycles.now view.now.steps.now) (positions_from view.now.bx.now view.now.by.now))) ≤ length buffer.old }
    ensures { BytesPut buffer.old start (spread cell_bytes (cells_of (take n (cells_in view.now.ids.now view.now.kinds.now view.now.starts.now view.now.ends.now view.now.bends.now view.now.counts.now view.now.px.now view.now.py.now)) (cycles_from view.now.cycles.now view.now.steps.now) (positions_from view.now.bx.now view.now.by.now))) buffer.new result }
{
    let mut at = start;
    let mut place = Place {
        bends: 0,
        cycles: 0,
        steps: 0,
    };
    for i in 0..n {
        let c = cell_at(view, i);
        at += file_write::put_cell(
            c,
            place,
            view.bx,
            view.by,
            view.cycles,
            view.steps,
            &mut buffer[at..],
        );
        let s = c.shape;
        place = file_write::place_after(s, view.cycles, place);
    }
    at
}
