#![tactic(auto)]

ghost use Rattle.std.specs.Prelude.{◌≡◌, ◌≤◌, take, length};
ghost use Rattle.store.specs.View.{bend_count, cycle_count};
ghost use Rattle.store.specs.Index.{Rising, row_of, value_at};
ghost use Rattle.store.specs.Edits.{places_of};

use coordinate::Position;

// What a cell is, and how many places of the arrays below are its.
#[derive(Clone, Copy)]
pub enum Shape {
    Vertex(Position),
    Open { start: u32, end: u32, bends: u32 },
    Closed { bends: u32 },
    Face { cycles: u32 },
}

#[derive(Clone, Copy)]
pub struct Cell {
    pub id: u32,
    pub shape: Shape,
}

// A drawing in memory. The cells stand by rising id; the bends and the cycles of a cell follow those of the cells before
// it, and so do the steps of a cycle. A cycle is its number of steps, 0 for a lone vertex, which takes one place of steps;
// a step is 2 x id, plus 1 if backward. Nothing is stored that can be derived.
#[derive(Clone, Copy)]
pub struct Drawing {
    pub next: u32,
    pub count: usize,
    pub cells: [Cell; 256],
    pub cycles: [u32; 512],
    pub steps: [u32; 2048],
    pub bends: [Position; 2048],
}

// How many bends a cell has.
pub fn bend_count(s: Shape) -> u32
    ensures { result ≡ bend_count s }
{
    match s {
        Shape::Vertex(_) => 0,
        Shape::Open { bends, .. } => bends,
        Shape::Closed { bends } => bends,
        Shape::Face { .. } => 0,
    }
}

pub fn wide(x: u32) -> usize
    ensures { result ≡ x }
{
    x as usize
}

// How many cycles a cell has.
pub fn cycle_count(s: Shape) -> u32
    ensures { result ≡ cycle_count s }
{
    match s {
        Shape::Vertex(_) => 0,
        Shape::Open { .. } => 0,
        Shape::Closed { .. } => 0,
        Shape::Face { cycles } => cycles,
    }
}

// A row of numbers for each cell.
#[derive(Clone, Copy)]
pub struct Index {
    pub ids: [u32; 256],
    pub kinds: [u32; 256],
    pub starts: [u32; 256],
    pub ends: [u32; 256],
    pub bends: [u32; 256],
    pub cycles: [u32; 256],
}

// The places that a count stands for; a count 0 stands for z.
pub fn places(z: usize, c: u32) -> usize
    ensures { result ≡ places_of z c }
{
    if c == 0 {
        return z;
    }
    wide(c)
}

// The row of an id among the first n, which rise; n if it is not there.
pub fn find(ids: &[u32; 256], n: usize, id: u32) -> usize
    requires n_bound { n ≤ 256 }
    requires ids_len { length ids.now ≡ 256 }
    requires rising { Rising (take n ids.now) }
    ensures { result ≡ row_of id (take n ids.now) }
{
    ids[..n].binary_search(&id).unwrap_or(n)
}

// The value in the row of an id, or z if no row has it.
pub fn value_at(z: u32, ids: &[u32; 256], values: &[u32; 256], n: usize, id: u32) -> u32
    requires n_bound { n ≤ 256 }
    requires ids_len { length ids.now ≡ 256 }
    requires values_len { length values.now ≡ 256 }
    requires rising { Rising (take n ids.now) }
    ensures { result ≡ value_at z (take n ids.now) (take n values.now) id }
{
    let row = find(ids, n, id);
    if row < n {
        return values[row];
    }
    z
}
