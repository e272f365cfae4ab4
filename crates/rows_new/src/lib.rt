#![tactic(auto)]

ghost use Rattle.rows_new.specs.Runs.{run_at};

use coordinate::Position;

// Bends of a drawing: `count` places from `first` on, then the position `at` if `middle`, then `count2` places from
// `first2` on; a run is taken back to front if it is turned.
#[derive(Clone, Copy)]
pub struct Runs {
    pub first: usize,
    pub count: usize,
    pub turned: bool,
    pub middle: bool,
    pub at: Position,
    pub first2: usize,
    pub count2: usize,
    pub turned2: bool,
}
