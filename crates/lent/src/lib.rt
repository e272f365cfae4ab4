#![tactic(auto)]

ghost use Rattle.std.specs.Prelude.{◌≡◌, ◌<◌, set};
ghost use Rattle.complex.specs.Sound.{cells_most, bends_most};
ghost use Rattle.answer.specs.Late.{Summed};
ghost use Rattle.lent.specs.Arrays.{position_in, totals_by, Lengths};
ghost use Rattle.lent.specs.Growing.{row_put, cell_put};
ghost use Rattle.lent.specs.Replies.{line_of, line_says};
ghost use Rattle.lent.specs.Sheets.{arrays, seen, Same};

use answer::{Question, Totals};
use coordinate::Position;
use store::{Cell, Shape};

// What a command answers beside the drawing.
#[derive(Clone, Copy)]
pub struct Line {
    pub number: u32,
    pub first: u32,
    pub new: u32,
    pub removed: u32,
}

// What an accepted command does to ids: the first new one, how many are new and how many are removed.
#[derive(Clone, Copy)]
pub struct Change {
    pub first: u32,
    pub new: u32,
    pub removed: u32,
}

// The line of a command that issues nothing.
pub fn line_of(number: u32) -> Line
    ensures { result ≡ line_of number }
{
    Line {
        number,
        first: 0,
        new: 0,
        removed: 0,
    }
}

// What a command answers beside the drawing: 0 and what it did, or the number of the first no.
pub fn line_from(r: Result<Change, Question>) -> Line
    ensures { result ≡ line_says r }
{
    match r {
        Ok(c) => Line {
            number: 0,
            first: c.first,
            new: c.new,
            removed: c.removed,
        },
        Err(q) => line_of(q.number()),
    }
}

// A sheet in memory of its own: the next id, the number of cells, and the arrays that hold them.
#[derive(Drop)]
pub struct SheetBuf {
    pub next: u32,
    pub count: usize,
    pub ids: [u32; 256],
    pub kinds: [u32; 256],
    pub starts: [u32; 256],
    pub ends: [u32; 256],
    pub bends: [u32; 256],
    pub counts: [u32; 256],
    pub px: [f64; 256],
    pub py: [f64; 256],
    pub cycles: [u32; 512],
    pub steps: [u32; 2048],
    pub bx: [f64; 2048],
    pub by: [f64; 2048],
}

// The same in lent memory, to be edited.
#[derive(Drop)]
pub struct SheetMut<'a> {
    pub next: &'a mut u32,
    pub count: &'a mut usize,
    pub ids: &'a mut [u32; 256],
    pub kinds: &'a mut [u32; 256],
    pub starts: &'a mut [u32; 256],
    pub ends: &'a mut [u32; 256],
    pub bends: &'a mut [u32; 256],
    pub counts: &'a mut [u32; 256],
    pub px: &'a mut [f64; 256],
    pub py: &'a mut [f64; 256],
    pub cycles: &'a mut [u32; 512],
    pub steps: &'a mut [u32; 2048],
    pub bx: &'a mut [f64; 2048],
    pub by: &'a mut [f64; 2048],
}

// The same in lent memory, to be read.
#[derive(Clone, Copy)]
pub struct SheetRef<'a> {
    pub next: u32,
    pub count: usize,
    pub ids: &'a [u32; 256],
    pub kinds: &'a [u32; 256],
    pub starts: &'a [u32; 256],
    pub ends: &'a [u32; 256],
    pub bends: &'a [u32; 256],
    pub counts: &'a [u32; 256],
    pub px: &'a [f64; 256],
    pub py: &'a [f64; 256],
    pub cycles: &'a [u32; 512],
    pub steps: &'a [u32; 2048],
    pub bx: &'a [f64; 2048],
    pub by: &'a [f64; 2048],
}

// Lends a `SheetBuf` to be edited.
#[macro_export]
macro_rules! lend {
    ($own:expr) => {
        $crate::SheetMut {
            next: &mut $own.next,
            count: &mut $own.count,
            ids: &mut $own.ids,
            kinds: &mut $own.kinds,
            starts: &mut $own.starts,
            ends: &mut $own.ends,
            bends: &mut $own.bends,
            counts: &mut $own.counts,
            px: &mut $own.px,
            py: &mut $own.py,
            cycles: &mut $own.cycles,
            steps: &mut $own.steps,
            bx: &mut $own.bx,
            by: &mut $own.by,
        }
    };
}

impl SheetBuf {
    // No cell, and zeros in the arrays.
    pub fn empty() -> SheetBuf
        ensures next { result.next ≡ 1 }
        ensures count { result.count ≡ 0 }
    {
        SheetBuf {
            next: 1,
            count: 0,
            ids: [0; 256],
            kinds: [0; 256],
            starts: [0; 256],
            ends: [0; 256],
            bends: [0; 256],
            counts: [0; 256],
            px: [0.0; 256],
            py: [0.0; 256],
            cycles: [0; 512],
            steps: [0; 2048],
            bx: [0.0; 2048],
            by: [0.0; 2048],
        }
    }
}

impl SheetMut<'_> {
    // The sheet to be read.
    pub fn view(&self) -> SheetRef<'_>
        ensures { seen result ≡ arrays self.now }
    {
        SheetRef {
            next: *self.next,
            count: *self.count,
            ids: self.ids,
            kinds: self.kinds,
            starts: self.starts,
            ends: self.ends,
            bends: self.bends,
            counts: self.counts,
            px: self.px,
            py: self.py,
            cycles: self.cycles,
            steps: self.steps,
            bx: self.bx,
            by: self.by,
        }
    }

    // The lengths of the arrays.
    pub fn known(&self)
        ensures { Lengths (arrays self.now) }
    {
        self.view().known();
    }
}

impl SheetRef<'_> {
    // The lengths of the arrays.
    pub fn known(&self)
        ensures { Lengths (seen self.now) }
    {
        lengths::rows_long(self.ids);
        lengths::rows_long(self.kinds);
        lengths::rows_long(self.starts);
        lengths::rows_long(self.ends);
        lengths::rows_long(self.bends);
        lengths::rows_long(self.counts);
        lengths::places_long(self.px);
        lengths::places_long(self.py);
        lengths::cycles_long(self.cycles);
        lengths::steps_long(self.steps);
        lengths::bends_long(self.bx);
        lengths::bends_long(self.by);
    }
}

// How many cells, cycles, steps and bends there are.
pub fn totals(count: usize, bends: &[u32; 256], counts: &[u32; 256], cycles: &[u32; 512]) -> Totals
    requires { Summed bends.now counts.now count cycles.now }
    ensures { result ≡ totals_by count bends.now counts.now cycles.now }
{
    let b = rows_spans::place_sum(0, bends, 0, count);
    let c = rows_spans::place_sum(0, counts, 0, count);
    let s = rows_spans::place_sum(1, cycles, 0, c);
    Totals {
        cells: count,
        cycles: c,
        steps: s,
        bends: b,
    }
}

// A row of numbers is written.
pub fn put_row(
    sheet: &mut SheetMut<'_>,
    row: usize,
    id: u32,
    kind: u32,
    start: u32,
    end: u32,
    bend: u32,
    cycle: u32,
)
    requires { row < cells_most }
    ensures put { arrays sheet.new ≡ row_put (arrays sheet.old) row id kind start end bend cycle }
    ensures same { Same sheet.old sheet.new }
{
    sheet.ids[row] = id;
    sheet.kinds[row] = kind;
    sheet.starts[row] = start;
    sheet.ends[row] = end;
    sheet.bends[row] = bend;
    sheet.counts[row] = cycle;
}

// The position in a row is written.
pub fn put_position(px: &mut [f64; 256], py: &mut [f64; 256], row: usize, p: Position)
    requires { row < cells_most }
    ensures px_after { px.new ≡ set px.old row p.x }
    ensures py_after { py.new ≡ set py.old row p.y }
{
    px[row] = p.x;
    py[row] = p.y;
}

// A bend is written.
pub fn put_bend(bx: &mut [f64; 2048], by: &mut [f64; 2048], i: usize, p: Position)
    requires { i < bends_most }
    ensures bx_after { bx.new ≡ set bx.old i p.x }
    ensures by_after { by.new ≡ set by.old i p.y }
{
    bx[i] = p.x;
    by[i] = p.y;
}

// The position in a row.
pub fn vertex_at(px: &[f64; 256], py: &[f64; 256], row: usize) -> Position
    requires { row < cells_most }
    ensures { result ≡ position_in px.now py.now row }
{
    Position {
        x: px[row],
        y: py[row],
    }
}

// The bend in a place.
pub fn bend_at(bx: &[f64; 2048], by: &[f64; 2048], i: usize) -> Position
    requires { i < bends_most }
    ensures { result ≡ position_in bx.now by.now i }
{
    Position { x: bx[i], y: by[i] }
}

// A cell is written into a row: every number, and the position of a vertex.
pub fn put_cell(sheet: &mut SheetMut<'_>, row: usize, c: Cell)
    requires { row < cells_most }
    ensures put { arrays sheet.new ≡ cell_put (arrays sheet.old) row c.id c.shape }
    ensures same { Same sheet.old sheet.new }
{
    let id = c.id;
    let s = c.shape;
    match s {
        Shape::Vertex(p) => {
            put_position(sheet.px, sheet.py, row, p);
            put_row(sheet, row, id, 0, 0, 0, 0, 0);
        }
        Shape::Open {
            start,
            end,
            bends: n,
        } => {
            put_row(sheet, row, id, 1, start, end, n, 0);
        }
        Shape::Closed { bends: n } => {
            put_row(sheet, row, id, 2, 0, 0, n, 0);
        }
        Shape::Face { cycles: k } => {
            put_row(sheet, row, id, 3, 0, 0, 0, k);
        }
    }
}
