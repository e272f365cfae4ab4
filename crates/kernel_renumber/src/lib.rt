#![tactic(auto)]

ghost use Rattle.std.specs.Prelude.{◌≡◌, true, map, ◌+◌, ◌≤◌, take, drop, length};
ghost use Rattle.complex.specs.Lists.{total};
ghost use Rattle.complex.specs.Sound.{cells_most, cycles_most, steps_most};
ghost use Rattle.store.specs.View.{cycle_total, Fits};
ghost use Rattle.store.specs.Edits.{places_of};
ghost use Rattle.rows_steps.specs.Renaming.{PlacesRewritten};
ghost use Rattle.rows_steps.specs.Swap.{Wrote};
ghost use Rattle.lent.specs.Arrays.{held_by, normal, Lengths};
ghost use Rattle.lent_table.specs.Table.{Table};
ghost use Rattle.kernel_rename.specs.Renames.{EndsRenamed};
ghost use Rattle.kernel_renumber.specs.Renumbers.{new_id, new_place, RowsNumbered, RenumberedIn};
ghost use Rattle.lent.specs.Sheets.{arrays, Same};

use lent::SheetMut;

// The new id of i: one more than its row.
fn new_id(table: &[u8; 1024], ids: &[u32; 256], n: usize, i: u32) -> u32
    requires { Table n table.now ids.now }
    ensures { result ≡ new_id (take n ids.now) i }
{
    let row = lent_table::row_of(table, ids, n, i);
    (row + 1) as u32
}

// A lone vertex is renamed, or a step's edge; its direction stays.
fn new_place(table: &[u8; 1024], ids: &[u32; 256], n: usize, lone: bool, s: u32) -> u32
    requires { Table n table.now ids.now }
    ensures { result ≡ new_place (new_id (take n ids.now)) lone s }
{
    if lone {
        let v = new_id(table, ids, n, s);
        return v;
    }
    let e = new_id(table, ids, n, s / 2);
    e * 2 + s % 2
}

// The ends of the open edges in the n rows are renamed.
fn rename_ends(
    table: &[u8; 1024],
    ids: &[u32; 256],
    n: usize,
    kinds: &[u32; 256],
    starts: &mut [u32; 256],
    ends: &mut [u32; 256],
)
    requires table { Table n table.now ids.now }
    requires kinds_len { (length kinds.now ≡ cells_most) × (length starts.old ≡ cells_most) × (length ends.old ≡ cells_most) }
    ensures ends_renamed { EndsRenamed (new_id (take n ids.now)) kinds.now n starts.old starts.new }
    ensures ends_renamed_2 { EndsRenamed (new_id (take n ids.now)) kinds.now n ends.old ends.new }
{
    for i in 0..n {
        if kinds[i] == 1 {
            starts[i] = new_id(table, ids, n, starts[i]);
            ends[i] = new_id(table, ids, n, ends[i]);
        }
    }
}

// The k places of a cycle are renamed: one lone vertex, or steps.
fn rename_cycle(
    table: &[u8; 1024],
    ids: &[u32; 256],
    n: usize,
    lone: bool,
    steps: &mut [u32; 2048],
    at: usize,
    k: usize,
)
    requires table { Table n table.now ids.now }
    requires k_in_bounds { at + k ≤ length steps.old }
    requires steps_len { length steps.old ≡ steps_most }
    ensures { Wrote steps.old at (map (new_place (new_id (take n ids.now)) lone) (take k (drop at steps.old))) steps.new }
{
    for j in 0..k {
        let s = steps[at + j];
        steps[at + j] = new_place(table, ids, n, lone, s);
    }
}

// The steps and the lone vertices of the first k cycles are renamed.
fn rename_cycles(
    table: &[u8; 1024],
    ids: &[u32; 256],
    n: usize,
    cycles: &[u32; 512],
    k: usize,
    steps: &mut [u32; 2048],
)
    requires table { Table n table.now ids.now }
    requires k_le_cycles_most { k ≤ cycles_most }
    requires cycles_bound { total (places_of 1) (take k cycles.now) ≤ steps_most }
    requires cycles_len { (length cycles.now ≡ cycles_most) × (length steps.old ≡ steps_most) }
    ensures places_rewritten { PlacesRewritten (new_place (new_id (take n ids.now))) (take k cycles.now) steps.old steps.new }
    ensures steps_len { length steps.new ≡ steps_most }
{
    let mut at: usize = 0;
    for i in 0..k {
        let c = cycles[i];
        let m = store::places(1, c);
        rename_cycle(table, ids, n, c == 0, steps, at, m);
        at = at + m;
    }
}

// The n rows get the ids 1 to n.
fn number_rows(ids: &mut [u32; 256], n: usize)
    requires n_le_cells_most { n ≤ cells_most }
    requires ids_len { length ids.old ≡ cells_most }
    ensures { RowsNumbered n ids.old ids.new }
{
    for i in 0..n {
        ids[i] = (i + 1) as u32;
    }
}

// The cells get the ids 1 to count in the order they have, every end, step and lone vertex is renamed, and the next id is
// count + 1; k cycles are in use.
pub fn renumber(sheet: &mut SheetMut<'_>, k: usize)
    requires fits { Fits (held_by (arrays sheet.old)) }
    requires lengths { Lengths (arrays sheet.old) }
    requires by_value { normal (arrays sheet.old) ≡ true }
    requires k_value { k ≡ cycle_total (held_by (arrays sheet.old)) }
    ensures renumbered_in { RenumberedIn (arrays sheet.old) (arrays sheet.new) }
    ensures same { Same sheet.old sheet.new }
    ensures kept { arrays sheet.new ≡ record (arrays sheet.old) { next = sheet.new.next.now; ids = sheet.new.ids.now; starts = sheet.new.starts.now; ends = sheet.new.ends.now; steps = sheet.new.steps.now } }
{
    let mut table = [0u8; 1024];
    lent_table::fill(&mut table, sheet.ids, *sheet.count);
    rename_ends(
        &table,
        sheet.ids,
        *sheet.count,
        sheet.kinds,
        sheet.starts,
        sheet.ends,
    );
    rename_cycles(
        &table,
        sheet.ids,
        *sheet.count,
        sheet.cycles,
        k,
        sheet.steps,
    );
    number_rows(sheet.ids, *sheet.count);
    *sheet.next = (*sheet.count + 1) as u32;
}
