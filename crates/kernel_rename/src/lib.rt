#![tactic(auto)]

ghost use Rattle.std.specs.Prelude.{◌≡◌, true, ◌≤◌, take, length};
ghost use Rattle.complex.specs.Lists.{total};
ghost use Rattle.complex.specs.Sound.{cells_most, cycles_most, steps_most};
ghost use Rattle.complex.specs.Glue.{renamed};
ghost use Rattle.store.specs.View.{cycle_total, Fits};
ghost use Rattle.store.specs.Edits.{places_of};
ghost use Rattle.rows_steps.specs.Renaming.{LoneRenamed};
ghost use Rattle.lent.specs.Arrays.{held_by, normal, Lengths};
ghost use Rattle.kernel_rename.specs.Renames.{EndsRenamed, RenamedIn};
ghost use Rattle.lent.specs.Sheets.{arrays, Same};

use lent::SheetMut;

// a where b stood.
fn rename(v: u32, a: u32, b: u32) -> u32
    ensures { result ≡ renamed a b v }
{
    if b == v { a } else { v }
}

// The ends of the open edges in the first n rows that are b become a.
fn rename_ends(
    kinds: &[u32; 256],
    n: usize,
    starts: &mut [u32; 256],
    ends: &mut [u32; 256],
    a: u32,
    b: u32,
)
    requires n_le_cells_most { n ≤ cells_most }
    requires kinds_len { (length kinds.now ≡ cells_most) × (length starts.old ≡ cells_most) × (length ends.old ≡ cells_most) }
    ensures ends_renamed { EndsRenamed (renamed a b) kinds.now n starts.old starts.new }
    ensures ends_renamed_2 { EndsRenamed (renamed a b) kinds.now n ends.old ends.new }
{
    for i in 0..n {
        if kinds[i] == 1 {
            starts[i] = rename(starts[i], a, b);
            ends[i] = rename(ends[i], a, b);
        }
    }
}

// The lone vertices of the first n cycles that are b become a: a cycle with the number 0 is one place.
fn rename_lone(cycles: &[u32; 512], n: usize, steps: &mut [u32; 2048], a: u32, b: u32)
    requires n_le_cycles_most { n ≤ cycles_most }
    requires cycles_bound { total (places_of 1) (take n cycles.now) ≤ steps_most }
    requires cycles_len { (length cycles.now ≡ cycles_most) × (length steps.old ≡ steps_most) }
    ensures lone_renamed { LoneRenamed (renamed a b) (take n cycles.now) steps.old steps.new }
    ensures steps_len { length steps.new ≡ steps_most }
{
    let mut at: usize = 0;
    for i in 0..n {
        let c = cycles[i];
        if c == 0 {
            steps[at] = rename(steps[at], a, b);
        }
        at = at + store::places(1, c);
    }
}

// Every use of vertex b becomes a; k cycles are in use.
pub fn rename_vertex(sheet: &mut SheetMut<'_>, k: usize, a: u32, b: u32)
    requires fits { Fits (held_by (arrays sheet.old)) }
    requires lengths { Lengths (arrays sheet.old) }
    requires by_value { normal (arrays sheet.old) ≡ true }
    requires k_value { k ≡ cycle_total (held_by (arrays sheet.old)) }
    ensures renamed_in { RenamedIn (renamed a b) (arrays sheet.old) (arrays sheet.new) }
    ensures same { Same sheet.old sheet.new }
    ensures kept { arrays sheet.new ≡ record (arrays sheet.old) { starts = sheet.new.starts.now; ends = sheet.new.ends.now; steps = sheet.new.steps.now } }
{
    rename_ends(sheet.kinds, *sheet.count, sheet.starts, sheet.ends, a, b);
    rename_lone(sheet.cycles, k, sheet.steps, a, b);
}
