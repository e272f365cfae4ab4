#![tactic(auto)]

ghost use Rattle.std.specs.Prelude.{◌≡◌, ◌+◌, ◌-◌, ◌≤◌};
ghost use Rattle.answer.specs.Sizes.{sizes_fit, more_less, changed_by};
ghost use Rattle.complex.specs.Sound.{ids_end};
ghost use Rattle.answer.specs.Questions.{number_of, no_of};
ghost use Rattle.answer.specs.Late.{sizes_by, late_no, Small};

use store::Drawing;

const IDS_END: u32 = 65536;

const CELLS_MOST: usize = 256;

const CYCLES_MOST: usize = 512;

const STEPS_MOST: usize = 2048;

const BENDS_MOST: usize = 2048;

// What a command answers: the number of the first question that got a no, or 0; the first new id, the counts of new and
// of removed ids; the drawing.
#[derive(Clone, Copy)]
pub struct Answer {
    pub number: u32,
    pub first: u32,
    pub new: u32,
    pub removed: u32,
    pub drawing: Drawing,
}

// A question of document 01 whose answer is a no.
#[derive(Clone, Copy)]
pub enum Question {
    Sound,
    Whole,
    Bounds,
    Live,
    Exists,
    Rule,
    Ids,
    Ceilings,
    Buffer,
    File,
}

impl Question {
    // Its number.
    pub fn number(self) -> u32
        ensures { result ≡ number_of self }
    {
        match self {
            Question::Sound => 1,
            Question::Whole => 2,
            Question::Bounds => 3,
            Question::Live => 4,
            Question::Exists => 5,
            Question::Rule => 6,
            Question::Ids => 7,
            Question::Ceilings => 8,
            Question::Buffer => 9,
            Question::File => 10,
        }
    }
}

// How many cells, cycles, steps and bends there are, a lone vertex counted as one step.
#[derive(Clone, Copy)]
pub struct Totals {
    pub cells: usize,
    pub cycles: usize,
    pub steps: usize,
    pub bends: usize,
}

// Whether sizes keep the ceilings after a change: first more, then less.
fn fit_after(t: Totals, more: Totals, less: Totals) -> bool
    requires { Small t × Small more × Small less }
    ensures { result ≡ sizes_fit (changed_by (sizes_by t) (more_less (sizes_by more) (sizes_by less))) }
{
    if CELLS_MOST + less.cells < t.cells + more.cells {
        return false;
    }
    if CYCLES_MOST + less.cycles < t.cycles + more.cycles {
        return false;
    }
    if STEPS_MOST + less.steps < t.steps + more.steps {
        return false;
    }
    if BENDS_MOST + less.bends < t.bends + more.bends {
        return false;
    }
    true
}

// Questions 7 and 8, of so many new ids and such a change: the first no.
pub fn late_asked(
    next: u32,
    new: usize,
    t: Totals,
    more: Totals,
    less: Totals,
) -> Result<(), Question>
    requires next_le_ids_end { next ≤ ids_end }
    requires le_ids_end { new ≤ ids_end }
    requires small { Small t × Small more × Small less }
    ensures { no_of result ≡ late_no next new (changed_by (sizes_by t) (more_less (sizes_by more) (sizes_by less))) }
{
    let n = new as u32;
    if IDS_END < next + n {
        return Err(Question::Ids);
    }
    if fit_after(t, more, less) {
        return Ok(());
    }
    Err(Question::Ceilings)
}
