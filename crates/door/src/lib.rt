#![tactic(auto)]

ghost use Rattle.std.specs.Prelude.{◌≡◌, ◌<◌, length};
ghost use Rattle.complex.specs.Sound.{cells_most, bends_most};
ghost use Rattle.lent.specs.Arrays.{positions_in, held_by, Lengths};
ghost use Rattle.call_cells.specs.Rows.{cells_in};
ghost use Rattle.door.specs.Apart.{Apart};
ghost use Rattle.door.specs.Parts.{AllRows};
ghost use Rattle.lent.specs.Sheets.{arrays, seen, Same};

use coordinate::Position;
use lent::{SheetMut, SheetRef};
use store::{Cell, Drawing, Shape};

// All cells are written, a row each.
fn put_cells(sheet: &mut SheetMut<'_>, cells: [Cell; 256])
    requires { Lengths (arrays sheet.old) }
    ensures all_rows { AllRows cells (arrays sheet.new) }
    ensures same { Same sheet.old sheet.new }
    ensures kept { arrays sheet.new ≡ record (arrays sheet.new) { next = sheet.old.next.now; count = sheet.old.count.now; cycles = sheet.old.cycles.now; steps = sheet.old.steps.now; bx = sheet.old.bx.now; by = sheet.old.by.now } }
{
    for i in 0..256 {
        let c = cells[i];
        lent::put_cell(sheet, i, c);
    }
}

// The cells of the rows.
fn cells_of(view: &SheetRef<'_>) -> [Cell; 256]
    requires { length view.now.ids.now ≡ cells_most }
    ensures { result ≡ cells_in view.now.ids.now view.now.kinds.now view.now.starts.now view.now.ends.now view.now.bends.now view.now.counts.now view.now.px.now view.now.py.now }
{
    let none = Cell {
        id: 0,
        shape: Shape::Face { cycles: 0 },
    };
    let mut out = [none; 256];
    for i in 0..256 {
        let c = call_cells::cell_at(view, i);
        out[i] = c;
    }
    out
}

// All bends are written.
fn put_bends(bends: [Position; 2048], bx: &mut [f64; 2048], by: &mut [f64; 2048])
    requires { (length bx.old ≡ bends_most) × (length by.old ≡ bends_most) }
    ensures { positions_in bx.new by.new ≡ bends }
{
    for i in 0..2048 {
        let p = bends[i];
        lent::put_bend(bx, by, i, p);
    }
}

// The bends of two arrays.
fn bends_of(bx: &[f64; 2048], by: &[f64; 2048]) -> [Position; 2048]
    requires { (length bx.now ≡ bends_most) × (length by.now ≡ bends_most) }
    ensures { result ≡ positions_in bx.now by.now }
{
    let mut out = [Position { x: 0.0, y: 0.0 }; 2048];
    for i in 0..2048 {
        let p = lent::bend_at(bx, by, i);
        out[i] = p;
    }
    out
}

// A drawing in lent arrays: all of its rows, cycles, steps and bends are written.
pub fn take_apart(d: Drawing, sheet: &mut SheetMut<'_>)
    ensures apart { Apart d (arrays sheet.new) }
    ensures same { Same sheet.old sheet.new }
{
    let rows = d.cells;
    let places = d.bends;
    let ks = d.cycles;
    let ss = d.steps;
    sheet.known();
    put_cells(sheet, rows);
    put_bends(places, sheet.bx, sheet.by);
    *sheet.next = d.next;
    *sheet.count = d.count;
    *sheet.cycles = ks;
    *sheet.steps = ss;
}

// The drawing that arrays hold.
pub fn put_together(view: &SheetRef<'_>) -> Drawing
    ensures { result ≡ held_by (seen view.now) }
{
    lengths::rows_long(view.ids);
    lengths::bends_long(view.bx);
    lengths::bends_long(view.by);
    let rows = cells_of(view);
    let places = bends_of(view.bx, view.by);
    let ks = *view.cycles;
    let ss = *view.steps;
    Drawing {
        next: view.next,
        count: view.count,
        cells: rows,
        cycles: ks,
        steps: ss,
        bends: places,
    }
}
