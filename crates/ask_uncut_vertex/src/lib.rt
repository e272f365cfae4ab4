#![tactic(auto)]

ghost use Rattle.std.specs.Prelude.{◌≡◌, cond, ◌≤◌};
ghost use Rattle.answer.specs.Sizes.{sized, more_less, changed_by};
ghost use Rattle.answer.specs.Late.{sizes_by, late_no, Small};
ghost use Rattle.complex.specs.Sound.{ids_end};
ghost use Rattle.answer.specs.Questions.{no_of};

use answer::{Question, Totals};

// Questions 7 and 8 where a vertex becomes a bend of a new edge and so many cells go: the first no. Steps that
// go need not be counted: no ceiling is passed by fewer.
pub fn bend_asked(next: u32, t: Totals, cells: usize) -> Result<(), Question>
    requires next_le_ids_end { next ≤ ids_end }
    requires small { Small t }
    requires cells_bound { cells ≤ 4294967296 }
    ensures { no_of result ≡ late_no next 1 (changed_by (sizes_by t) (more_less (sized 0 0 0 1) (sized cells 0 0 0))) }
{
    let more = Totals {
        cells: 0,
        cycles: 0,
        steps: 0,
        bends: 1,
    };
    let less = Totals {
        cells: cells,
        cycles: 0,
        steps: 0,
        bends: 0,
    };
    answer::late_asked(next, 1, t, more, less)
}

// An edge as it leaves a vertex: its row, the vertex where it leads, and where its bends stand.
#[derive(Clone, Copy)]
pub struct Side {
    pub row: usize,
    pub far: u32,
    pub first: usize,
    pub count: usize,
}

pub fn either(first: bool, a: u32, b: u32) -> u32
    ensures { result ≡ cond first a b }
{
    if first {
        return a;
    }
    b
}
