#![tactic(auto)]

// Fields of a command, by their shape: two numbers, three numbers, the lists of a cut.
ghost use Rattle.std.specs.Prelude.{◌≤◌, length};
ghost use Rattle.decode_parts.specs.Lists.{Found};
ghost use Rattle.decode_fields.specs.Fields.{read_two_numbers, read_three_numbers, read_cut_lists, two_says, three_says, cut_says, CutLie};

// Two numbers and the place after them, if they stand there. Put into its callers: a file has two such numbers for each cell.
#[inline(always)]
pub fn two_numbers(script: &[u8], at: usize) -> Option<(u32, u32, usize)>
    ensures { Found read_two_numbers script.now at (two_says result) }
{
    let Some((a, second)) = number::read_number(script, at) else {
        return None;
    };
    let Some((b, next)) = number::read_number(script, second) else {
        return None;
    };
    Some((a, b, next))
}

// Three numbers and the place after them, if they stand there. Put into its callers: a file has three such numbers for each open edge.
#[inline(always)]
pub fn three_numbers(script: &[u8], at: usize) -> Option<(u32, u32, u32, usize)>
    ensures { Found read_three_numbers script.now at (three_says result) }
{
    let Some((a, b, third)) = two_numbers(script, at) else {
        return None;
    };
    let Some((c, next)) = number::read_number(script, third) else {
        return None;
    };
    Some((a, b, c, next))
}

// A bend list and a list of moved cycles, each by its count and the place of its first element, and
// the place after them, if they stand there.
pub fn cut_lists(script: &[u8], at: usize) -> Option<(u32, usize, u32, usize, usize)>
    requires { at ≤ length script.now }
    ensures found { Found read_cut_lists script.now at (cut_says script.now result) }
    ensures cut_lie { CutLie script.now result }
{
    let Some((bends, first, list)) = decode_parts::bends_at(script, at) else {
        return None;
    };
    let Some((moved, place)) = number::read_number(script, list) else {
        return None;
    };
    let Some(next) = decode_parts::skip_numbers(script, place, moved) else {
        return None;
    };
    Some((bends, first, moved, place, next))
}
