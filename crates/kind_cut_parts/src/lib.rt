#![tactic(auto)]

// What an edge that is cut falls into, and its rows.
ghost use Rattle.std.specs.Prelude.{◌≡◌, true, false, ◌+◌, ◌/◌, ◌%◌, ◌<◌, ◌≤◌};
ghost use Rattle.complex.specs.Sound.{cells_most, bends_most, ids_end};
ghost use Rattle.kind_cut_parts.specs.Parting.{parts_of, parted};
ghost use Rattle.lent.specs.Sheets.{arrays, Same};

use coordinate::Position;
use lent::SheetMut;
use rows_steps::Swap;

// How an edge falls into parts: how many cells are new, which of its bends go last, where the first part starts, how many bends
// the first part and the second have, and what becomes of the edge's steps.
#[derive(Clone, Copy)]
pub struct Parts {
    pub new: u32,
    pub i: usize,
    pub j: usize,
    pub start: u32,
    pub first: u32,
    pub second: u32,
    pub swap: Swap,
}

// The parts of the edge e with m bends, cut at place q, where id is the new vertex: two that meet there, the first from s, or a
// loop, whose bends stand onward from the vertex; a bend that the vertex is at goes.
pub fn parts_of(two: bool, id: u32, e: u32, s: u32, m: usize, q: usize) -> Parts
    requires id_le_ids_end { id ≤ ids_end }
    requires e_lt_ids_end { e < ids_end }
    requires m_le_bends_most { m ≤ bends_most }
    requires q_bound { two ≡ true → q / 2 + q % 2 ≤ m }
    requires q_bound_2 { two ≡ false → q / 2 < m }
    ensures { result ≡ parts_of two id e s m q }
{
    let i = q / 2;
    if two {
        let j = i + q % 2;
        let first = i as u32;
        let second = (m - j) as u32;
        let swap = rows_steps::two_for(e, id + 1, id + 2);
        return Parts {
            new: 3,
            i,
            j,
            start: s,
            first,
            second,
            swap,
        };
    }
    let j = i + 1;
    let first = (m - q % 2) as u32;
    let swap = rows_steps::one_for(e, id + 1, false);
    Parts {
        new: 2,
        i: 0,
        j,
        start: id,
        first,
        second: 0,
        swap,
    }
}

// A vertex, an open edge from s to it of the first i of the bends after those in use, and, where an open edge is cut, one from it
// to f of the next k.
pub fn put_parts(two: bool, sheet: &mut SheetMut<'_>, p: Position, s: u32, f: u32, i: u32, k: u32)
    requires count_bound { sheet.old.count.now + 1 < cells_most }
    requires next_bound { sheet.old.next.now + 1 < ids_end }
    requires count_bound_2 { two ≡ true → (sheet.old.count.now + 2 < cells_most) × (sheet.old.next.now + 2 < ids_end) }
    ensures parted { arrays sheet.new ≡ parted two (arrays sheet.old) p s f i k }
    ensures same { Same sheet.old sheet.new }
{
    let v = *sheet.next;
    lent::put_position(sheet.px, sheet.py, *sheet.count, p);
    kernel_add::add_row(sheet, 0, 0, 0, 0, 0);
    kernel_add::add_row(sheet, 1, s, v, i, 0);
    if two {
        kernel_add::add_row(sheet, 1, v, f, k, 0);
    }
}
