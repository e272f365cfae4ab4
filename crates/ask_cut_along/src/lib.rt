#![tactic(auto)]

ghost use Rattle.std.specs.Prelude.{◌≡◌, false, ◌+◌, ◌<◌, ◌≤◌};
ghost use Rattle.complex.specs.Sound.{ids_end};
ghost use Rattle.answer.specs.Late.{Small};
ghost use Rattle.number.specs.Numbers.{read_number};
ghost use Rattle.decode_parts.specs.Lists.{Stand, numbers_read};
ghost use Rattle.answer.specs.Questions.{no_of};
ghost use Rattle.ask_cut_along.specs.Corners.{lone_count, cut_no, moved_fit};

use answer::{Question, Totals};
use rows_spans::Spans;

// 1 if cycle c of the spans is a lone vertex, which counts as one step, else 0.
pub fn lone_step(cycles: &[u32; 512], t: Spans, c: u32) -> usize
    requires { t.cycles.first + c < 512 }
    ensures { result ≡ lone_count cycles.now t c }
{
    let k = t.cycles;
    let j = k.first + store::wide(c);
    if cycles[j] == 0 {
        return 1;
    }
    0
}

// Questions 7 and 8 of a cut with k bends from a corner of cycle c1 to one of cycle c2: the first no.
pub fn cut_asked(
    next: u32,
    t: Totals,
    cycles: &[u32; 512],
    s: Spans,
    c1: u32,
    c2: u32,
    k: u32,
) -> Result<(), Question>
    requires next_le_ids_end { next ≤ ids_end }
    requires small { Small t }
    requires c1_bound { s.cycles.first + c1 < 512 }
    requires c2_bound { s.cycles.first + c2 < 512 }
    ensures { no_of result ≡ cut_no next t cycles.now s c1 c2 k }
{
    let bends = store::wide(k);
    let alone = lone_step(cycles, s, c1);
    if c1 == c2 {
        let more = Totals {
            cells: 2,
            cycles: 1,
            steps: 2,
            bends,
        };
        let less = Totals {
            cells: 0,
            cycles: 0,
            steps: alone,
            bends: 0,
        };
        return answer::late_asked(next, 2, t, more, less);
    }
    let both = alone + lone_step(cycles, s, c2);
    let more = Totals {
        cells: 1,
        cycles: 0,
        steps: 2,
        bends,
    };
    let less = Totals {
        cells: 0,
        cycles: 1,
        steps: both,
        bends: 0,
    };
    answer::late_asked(next, 1, t, more, less)
}

// Whether the moved cycles rise strictly below k and are without c1; where c1 and c2 differ, whether there are none.
pub fn moved_fit(script: &[u8], place: usize, moved: u32, k: u32, c1: u32, c2: u32) -> bool
    requires { Stand read_number script.now place moved }
    ensures { result ≡ moved_fit k c1 c2 (numbers_read script.now place moved) }
{
    if c1 != c2 {
        return moved == 0;
    }
    if !script::moved_rise(script, place, moved, k) {
        return false;
    }
    !script::moved_has(script, place, moved, c1)
}
