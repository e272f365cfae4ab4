#![tactic(auto)]

ghost use Rattle.std.specs.Prelude.{◌≡◌, ◌*◌, ◌≤◌};
ghost use Rattle.answer.specs.Sizes.{sized, nothing, more_less, changed_by};
ghost use Rattle.complex.specs.Sound.{ids_end, bends_most};
ghost use Rattle.answer.specs.Questions.{no_of};
ghost use Rattle.answer.specs.Late.{sizes_by, late_no, Small};

use answer::{Question, Totals};

// Questions 7 and 8, of n new copies of a cell with b bends.
pub fn copies_asked(next: u32, t: Totals, b: usize, n: usize) -> Result<(), Question>
    requires next_le_ids_end { next ≤ ids_end }
    requires small { Small t }
    requires b_le_bends_most { b ≤ bends_most }
    requires n_bound { n ≤ 4096 }
    ensures { no_of result ≡ late_no next n (changed_by (sizes_by t) (more_less (sized n 0 0 (n * b)) nothing)) }
{
    ask_create::cells_asked(next, t, n, 0, 0, n * b)
}
