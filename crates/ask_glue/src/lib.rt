#![tactic(auto)]

ghost use Rattle.std.specs.Prelude.{◌≡◌, ◌||◌, eqb, take};
ghost use Rattle.store.specs.Index.{value_at};
ghost use Rattle.answer.specs.Questions.{no_of};
ghost use Rattle.ask_glue.specs.Questions.{NumberRows, vertices_no, ends_meet, may_glue_by, edges_no};

use answer::Question;

// Questions 4 and 6 of 07: the first no.
pub fn vertices_asked(
    ids: &[u32; 256],
    kinds: &[u32; 256],
    n: usize,
    a: u32,
    b: u32,
) -> Result<(), Question>
    requires { NumberRows ids.now kinds.now n }
    ensures { no_of result ≡ vertices_no (value_at 4 (take n ids.now) (take n kinds.now) a) (value_at 4 (take n ids.now) (take n kinds.now) b) (eqb a b) }
{
    if store::value_at(4, ids, kinds, n, a) != 0 {
        return Err(Question::Live);
    }
    if store::value_at(4, ids, kinds, n, b) != 0 {
        return Err(Question::Live);
    }
    if a == b {
        return Err(Question::Rule);
    }
    Ok(())
}

fn is_edge(k: u32) -> bool
    ensures { result ≡ eqb k 1 || eqb k 2 }
{
    if k == 1 {
        return true;
    }
    k == 2
}

// Whether ends are equal (flag 0) or swapped.
fn ends_meet(flag: u32, sa: u32, ea: u32, sb: u32, eb: u32) -> bool
    ensures { result ≡ ends_meet flag sa ea sb eb }
{
    if flag == 0 {
        if sa == sb {
            return ea == eb;
        }
        return false;
    }
    if sa == eb {
        return ea == sb;
    }
    false
}

// The same of the edges a and b.
pub fn ends_of(
    ids: &[u32; 256],
    starts: &[u32; 256],
    ends: &[u32; 256],
    n: usize,
    a: u32,
    b: u32,
    flag: u32,
) -> bool
    requires number_rows { NumberRows ids.now starts.now n }
    requires number_rows_2 { NumberRows ids.now ends.now n }
    ensures { result ≡ ends_meet flag (value_at 0 (take n ids.now) (take n starts.now) a) (value_at 0 (take n ids.now) (take n ends.now) a) (value_at 0 (take n ids.now) (take n starts.now) b) (value_at 0 (take n ids.now) (take n ends.now) b) }
{
    let sa = store::value_at(0, ids, starts, n, a);
    let ea = store::value_at(0, ids, ends, n, a);
    let sb = store::value_at(0, ids, starts, n, b);
    let eb = store::value_at(0, ids, ends, n, b);
    ends_meet(flag, sa, ea, sb, eb)
}

// The rule of 08, of the edges' kinds and whether their ends meet.
fn may_glue(ka: u32, kb: u32, meet: bool) -> bool
    ensures { result ≡ may_glue_by ka kb meet }
{
    if ka == 2 {
        return kb == 2;
    }
    if ka != 1 {
        return false;
    }
    if kb != 1 {
        return false;
    }
    meet
}

// Questions 4, 5 and 6 of 08: the first no.
pub fn edges_asked(ka: u32, kb: u32, same: bool, flag: u32, meet: bool) -> Result<(), Question>
    ensures { no_of result ≡ edges_no ka kb same flag meet }
{
    if !is_edge(ka) {
        return Err(Question::Live);
    }
    if !is_edge(kb) {
        return Err(Question::Live);
    }
    if 1 < flag {
        return Err(Question::Exists);
    }
    if same {
        return Err(Question::Rule);
    }
    if may_glue(ka, kb, meet) {
        return Ok(());
    }
    Err(Question::Rule)
}
