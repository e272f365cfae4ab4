#![tactic(auto)]

ghost use Rattle.std.specs.Prelude.{◌≡◌, cond, ◌+◌, ◌<◌};
ghost use Rattle.number.specs.Said.{done, no};
ghost use Rattle.lent_table.specs.Table.{Table};
ghost use Rattle.lent_row.specs.Row.{row_right, row_says, totals_upto, bare, Upto};

use answer::Totals;
use coordinate::Position;
use lent::SheetRef;

const CYCLES_MOST: usize = 512;

const BENDS_MOST: usize = 2048;

// The cell in row i but for the places of its bends, where t are the sums of the rows before it: the sums with it, or none at its fault.
// What depends on the kind is asked first, all at once: so the kind is looked at once.
pub fn row_right(view: &SheetRef<'_>, t: Totals, table: &[u8; 1024], i: usize) -> Option<Totals>
    requires upto { Upto (bare view.now.next view.now.count view.now.ids.now view.now.kinds.now view.now.starts.now view.now.ends.now view.now.bends.now view.now.counts.now view.now.px.now view.now.py.now view.now.cycles.now view.now.steps.now) i t }
    requires table { Table view.now.count table.now view.now.ids.now }
    requires i_lt_count { i < view.now.count }
    ensures { row_says result ≡ cond (row_right (bare view.now.next view.now.count view.now.ids.now view.now.kinds.now view.now.starts.now view.now.ends.now view.now.bends.now view.now.counts.now view.now.px.now view.now.py.now view.now.cycles.now view.now.steps.now) i) (done (totals_upto (bare view.now.next view.now.count view.now.ids.now view.now.kinds.now view.now.starts.now view.now.ends.now view.now.bends.now view.now.counts.now view.now.px.now view.now.py.now view.now.cycles.now view.now.steps.now) (i + 1))) (no 1) }
{
    if !lent_figure::id_right(view.next, view.ids, i) {
        return None;
    }
    if !lent_figure::row_normal(
        view.kinds[i],
        view.starts[i],
        view.ends[i],
        view.bends[i],
        view.counts[i],
    ) {
        return None;
    }
    let p = lent::vertex_at(view.px, view.py, i);
    if !lent_figure::figure_right(
        table,
        view.ids,
        view.kinds,
        view.starts,
        view.ends,
        view.count,
        i,
        view.bends[i],
        p,
    ) {
        return None;
    }
    let b = store::wide(view.bends[i]);
    if BENDS_MOST - t.bends < b {
        return None;
    }
    let c = store::wide(view.counts[i]);
    if c == 0 {
        return Some(Totals {
            cells: i + 1,
            cycles: t.cycles + c,
            steps: t.steps,
            bends: t.bends + b,
        });
    }
    if CYCLES_MOST - t.cycles < c {
        return None;
    }
    let Some(s) = lent_cycles::cycles_good(
        table,
        view.ids,
        view.kinds,
        view.starts,
        view.ends,
        view.count,
        view.cycles,
        view.steps,
        t.cycles,
        c,
        t.steps,
    ) else {
        return None;
    };
    Some(Totals {
        cells: i + 1,
        cycles: t.cycles + c,
        steps: s,
        bends: t.bends + b,
    })
}
