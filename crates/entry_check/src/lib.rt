#![tactic(auto)]

// The soundness test of lent arrays of any contents, as a call of its own: it tells how far it came.
ghost use Rattle.std.specs.Prelude.{◌≡◌, ◌≤◌};
ghost use Rattle.complex.specs.Sound.{cells_most};
ghost use Rattle.lent_sound.specs.Visits.{check_on};
ghost use Rattle.entry_check.specs.Verdicts.{verdict_by, verdict_as};
ghost use Rattle.lent.specs.Sheets.{seen};

use lent::SheetRef;

// Yes or no, and the count of cells visited: all on a yes, else up to and with the first fault. A no is no refusal.
#[derive(Clone, Copy)]
pub struct Verdict {
    pub sound: bool,
    pub visited: usize,
}

// Takes the cells as they stand and ends at the first fault. It refuses nothing.
pub fn check(view: &SheetRef<'_>) -> Verdict
    ensures result_value { verdict_by result ≡ check_on (seen view.now) }
    ensures visited_le_cells_most { result.visited ≤ cells_most }
{
    let mut table = [0u8; 1024];
    let v = lent_sound::visit(view, &mut table, true);
    match v {
        Ok(t) => Verdict {
            sound: true,
            visited: t.cells,
        },
        Err(n) => Verdict {
            sound: false,
            visited: n,
        },
    }
}

// The verdict as two numbers: 1 for a yes, 0 for a no; the count.
pub fn tell(v: Verdict, sound: &mut u32, visited: &mut u32)
    requires { v.visited ≤ cells_most }
    ensures visited_after { verdict_as sound.new visited.new ≡ verdict_by v }
    ensures sound_bound { sound.new ≤ 1 }
{
    *visited = v.visited as u32;
    if v.sound {
        *sound = 1;
    } else {
        *sound = 0;
    }
}
