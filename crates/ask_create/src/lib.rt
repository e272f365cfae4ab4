#![tactic(auto)]

ghost use Rattle.std.specs.Prelude.{◌≡◌, ◌≤◌};
ghost use Rattle.complex.specs.Sound.{ids_end};
ghost use Rattle.answer.specs.Questions.{no_of};
ghost use Rattle.answer.specs.Sizes.{sized, nothing, more_less, changed_by};
ghost use Rattle.answer.specs.Late.{sizes_by, late_no, Small};

use answer::{Question, Totals};

// Questions 7 and 8 of n new cells with so many cycles, steps and bends in all: the first no.
pub fn cells_asked(
    next: u32,
    t: Totals,
    n: usize,
    cycles: usize,
    steps: usize,
    bends: usize,
) -> Result<(), Question>
    requires next_le_ids_end { next ≤ ids_end }
    requires small { Small t }
    requires n_bound { n ≤ 4096 }
    requires cycles_bound { cycles ≤ 4294967296 }
    requires steps_bound { steps ≤ 4294967296 }
    requires bends_bound { bends ≤ 4294967296 }
    ensures { no_of result ≡ late_no next n (changed_by (sizes_by t) (more_less (sized n cycles steps bends) nothing)) }
{
    let more = Totals {
        cells: n,
        cycles: cycles,
        steps: steps,
        bends: bends,
    };
    let less = Totals {
        cells: 0,
        cycles: 0,
        steps: 0,
        bends: 0,
    };
    answer::late_asked(next, n, t, more, less)
}

// The same of one new cell.
pub fn cell_asked(
    next: u32,
    t: Totals,
    cycles: usize,
    steps: usize,
    bends: usize,
) -> Result<(), Question>
    requires next_le_ids_end { next ≤ ids_end }
    requires small { Small t }
    requires cycles_bound { cycles ≤ 4294967296 }
    requires steps_bound { steps ≤ 4294967296 }
    requires bends_bound { bends ≤ 4294967296 }
    ensures { no_of result ≡ late_no next 1 (changed_by (sizes_by t) (more_less (sized 1 cycles steps bends) nothing)) }
{
    cells_asked(next, t, 1, cycles, steps, bends)
}
