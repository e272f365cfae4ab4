#![tactic(auto)]

ghost use Rattle.std.specs.Prelude.{cond};
ghost use Rattle.ask_uncut.specs.Cases.{EdgeSays, open_pair, open_case, closed_pair, closed_case};

use answer::Question;
use ask_uncut_ends::AtVertex;
use ask_uncut_uses::{Between, Use, Uses};

// What stands at a cell that may be uncut: a vertex, or an edge by how its two uses lie.
#[derive(Clone, Copy)]
pub enum Case {
    Vertex(AtVertex),
    Edge(Between, Use, Use),
}

// The case of an open edge with two uses, or question 6.
fn open_pair(u: Use, w: Use) -> Result<(Between, Use, Use), Question>
    ensures { EdgeSays result (open_pair u w) }
{
    if !ask_uncut_turns::opposite(u.back, w.back) {
        return Err(Question::Rule);
    }
    if u.face != w.face {
        return Ok((Between::TwoFaces, u, w));
    }
    if u.cycle != w.cycle {
        return Err(Question::Rule);
    }
    if u.back {
        return Ok((Between::OneCycle, u, w));
    }
    Ok((Between::OneCycle, w, u))
}

// The case of a closed edge with two uses, or question 6.
fn closed_pair(u: Use, w: Use) -> Result<(Between, Use, Use), Question>
    ensures { EdgeSays result (closed_pair u w) }
{
    if !ask_uncut_turns::opposite(u.back, w.back) {
        return Err(Question::Rule);
    }
    if u.face == w.face {
        return Err(Question::Rule);
    }
    Ok((Between::Rings, u, w))
}

// The case of an edge with these uses, or question 6.
pub fn edge_case(closed: bool, x: Uses) -> Result<(Between, Use, Use), Question>
    ensures { EdgeSays result (cond closed (closed_case x) (open_case x)) }
{
    match (x.count, closed) {
        (2, true) => closed_pair(x.one, x.two),
        (2, false) => open_pair(x.one, x.two),
        _ => Err(Question::Rule),
    }
}
