#![tactic(auto)]

ghost use Rattle.std.specs.Prelude.{◌≡◌, ◌+◌, ◌*◌, ◌≤◌, length};
ghost use Rattle.number.specs.Readers.{all};
ghost use Rattle.coordinate.specs.Bounds.{within};
ghost use Rattle.bends.specs.Bends.{bend_list_says, bend_list_in, positions_at};

// The bend list that a part of a script starts with, if it does: how many bends, the place of the
// first and the place after the last, from the part's start.
pub fn read_bends(part: &[u8]) -> Option<(u32, usize, usize)>
    ensures { bend_list_says result ≡ bend_list_in part.now }
{
    let Some((count, first)) = number::read_number(part, 0) else {
        return None;
    };
    let bytes = 16 * (count as usize);
    if part.len() - first < bytes {
        return None;
    }
    Some((count, first, first + bytes))
}

// Whether every bend of a list is within the bounds.
pub fn bends_within(part: &[u8], first: usize, count: u32) -> bool
    requires { first + 16 * count ≤ length part.now }
    ensures { result ≡ all within (positions_at part.now first count) }
{
    let mut at = first;
    for _ in 0..count {
        let bend = coordinate::position_at(part, at);
        if !coordinate::in_bounds(bend) {
            return false;
        }
        at += 16;
    }
    true
}
