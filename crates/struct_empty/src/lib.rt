#![tactic(auto)]

// The empty drawing, as a struct.
ghost use Rattle.struct_empty.specs.Entries.{Empty};

use coordinate::Position;
use store::{Cell, Drawing, Shape};

// A drawing with next id 1 and no cell.
pub fn empty() -> Drawing
    ensures { Empty result }
{
    let p = Position { x: 0.0, y: 0.0 };
    Drawing {
        next: 1,
        count: 0,
        cells: [Cell {
            id: 0,
            shape: Shape::Vertex(p),
        }; 256],
        cycles: [0; 512],
        steps: [0; 2048],
        bends: [p; 2048],
    }
}
