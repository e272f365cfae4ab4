#![tactic(auto)]

ghost use Rattle.std.specs.Prelude.{◌≡◌, ◌+◌, ◌<◌, ◌≤◌, take, drop, length, set, ◌++◌, cond};
ghost use Rattle.complex.specs.Lists.{total};
ghost use Rattle.complex.specs.Calls.{filled};
ghost use Rattle.store.specs.Index.{row_of};
ghost use Rattle.store.specs.Places.{bit};
ghost use Rattle.rows_star.specs.Marks.{star_marks, Readable, picked};
ghost use Rattle.rows_star.specs.Calls.{star_answered, star_in};

// Marks the rows of the cells whose boundary holds id, the id of a row.
pub fn mark_star(
    ids: &[u32; 256],
    kinds: &[u32; 256],
    starts: &[u32; 256],
    ends: &[u32; 256],
    counts: &[u32; 256],
    n: usize,
    cycles: &[u32; 512],
    steps: &[u32; 2048],
    id: u32,
    row: usize,
    out: &mut [bool; 256],
)
    requires readable { Readable ids.now kinds.now starts.now ends.now counts.now n cycles.now steps.now }
    requires row_value { row ≡ row_of id (take n ids.now) }
    requires row_lt_n { row < n }
    requires out_len { length out.old ≡ 256 }
    ensures out_after { take n out.new ≡ star_marks (take n ids.now) (take n kinds.now) (take n starts.now) (take n ends.now) (take n counts.now) cycles.now steps.now id }
    ensures out_len_2 { length out.new ≡ 256 }
{
    rows_marks::edges_at(kinds, starts, ends, n, id, out);
    let mut edges = *out;
    edges[row] = true;
    rows_marks::faces_at(ids, &edges, n, counts, cycles, steps, id, out);
}

// How many of the first n marks are true.
pub fn count_marked(marks: &[bool; 256], n: usize) -> usize
    requires n_bound { n ≤ 256 }
    requires marks_len { length marks.now ≡ 256 }
    ensures { result ≡ total bit (take n marks.now) }
{
    let mut sum: usize = 0;
    for i in 0..n {
        sum = sum + marks[i] as usize;
    }
    sum
}

fn put_if(mark: bool, v: u32, out: &mut [u32], at: usize)
    requires { at + bit mark ≤ length out.old }
    ensures { out.new ≡ cond mark (set out.old at v) out.old }
{
    if mark {
        out[at] = v;
    }
}

// The ids of the marked rows, in order, in the first places of out.
pub fn list_marked(ids: &[u32; 256], marks: &[bool; 256], n: usize, out: &mut [u32])
    requires n_bound { n ≤ 256 }
    requires ids_len { length ids.now ≡ 256 }
    requires marks_len { length marks.now ≡ 256 }
    requires marks_in_bounds { total bit (take n marks.now) ≤ length out.old }
    ensures { out.new ≡ picked (take n marks.now) (take n ids.now) ++ drop (total bit (take n marks.now)) out.old }
{
    let mut at: usize = 0;
    for i in 0..n {
        let m = marks[i];
        put_if(m, ids[i], out, at);
        at = at + m as usize;
    }
}

// What a call with a lent buffer answers: its number, and the count of places that it needs.
#[derive(Clone, Copy)]
pub struct Counted {
    pub number: u32,
    pub count: usize,
}

// The ids of the marked rows, in order, if the buffer has room for them.
pub fn give_marked(ids: &[u32; 256], marks: &[bool; 256], n: usize, buffer: &mut [u32]) -> Counted
    requires n_bound { n ≤ 256 }
    requires ids_len { length ids.now ≡ 256 }
    requires marks_len { length marks.now ≡ 256 }
    ensures { star_answered result buffer.new ≡ filled (picked (take n marks.now) (take n ids.now)) buffer.old }
{
    let k = count_marked(marks, n);
    if k <= buffer.len() {
        list_marked(ids, marks, n, buffer);
        return Counted {
            number: 0,
            count: k,
        };
    }
    Counted {
        number: 9,
        count: k,
    }
}

// The star of id, which question 4 asks to be the id of a row.
pub fn star_rows(
    ids: &[u32; 256],
    kinds: &[u32; 256],
    starts: &[u32; 256],
    ends: &[u32; 256],
    counts: &[u32; 256],
    n: usize,
    cycles: &[u32; 512],
    steps: &[u32; 2048],
    id: u32,
    buffer: &mut [u32],
) -> Counted
    requires { Readable ids.now kinds.now starts.now ends.now counts.now n cycles.now steps.now }
    ensures { star_answered result buffer.new ≡ star_in (take n ids.now) (take n kinds.now) (take n starts.now) (take n ends.now) (take n counts.now) cycles.now steps.now id buffer.old }
{
    let row = store::find(ids, n, id);
    if row < n {
        let mut marks = [false; 256];
        mark_star(
            ids, kinds, starts, ends, counts, n, cycles, steps, id, row, &mut marks,
        );
        return give_marked(ids, &marks, n, buffer);
    }
    Counted {
        number: 4,
        count: 0,
    }
}
