#![tactic(auto)]

// A command from any bytes: the kinds with lists, and what the kind byte decides.
ghost use Rattle.std.specs.Prelude.{◌≡◌, ◌≤◌, length, drop};
ghost use Rattle.number.specs.Said.{found_or};
ghost use Rattle.complex.specs.Decode.{read_open_edge, read_closed_edge, read_face, read_create, read_cut_face_open, read_cut_face_closed, edits};
ghost use Rattle.complex.specs.Decode as bytes;
ghost use Rattle.decode_command.specs.View.{decoded_says, Decodes, DecodedEnd};

use decode_command::Command;

// 02: start, end, bend list
fn decode_open(script: &[u8], at: usize) -> Option<(Command, usize)>
    ensures { Decodes script.now at (edits (read_create read_open_edge) (drop at script.now)) result }
{
    let Some((start, end, list)) = decode_fields::two_numbers(script, at) else {
        return None;
    };
    let Some((bends, first, next)) = decode_parts::bends_at(script, list) else {
        return None;
    };
    Some((
        Command::Open {
            start,
            end,
            bends,
            first,
        },
        next,
    ))
}

// 03: bend list
fn decode_closed(script: &[u8], at: usize) -> Option<(Command, usize)>
    requires { at ≤ length script.now }
    ensures { Decodes script.now at (edits (read_create read_closed_edge) (drop at script.now)) result }
{
    let Some((bends, first, next)) = decode_parts::bends_at(script, at) else {
        return None;
    };
    Some((Command::Closed { bends, first }, next))
}

// 04: k, then the cycles
fn decode_face(script: &[u8], at: usize) -> Option<(Command, usize)>
    ensures { Decodes script.now at (edits (read_create read_face) (drop at script.now)) result }
{
    let Some((cycles, first)) = number::read_number(script, at) else {
        return None;
    };
    let Some(next) = decode_parts::skip_cycles(script, first, cycles) else {
        return None;
    };
    Some((Command::Face { cycles, first }, next))
}

// 0C: face, cycle c1, step s1, c2, s2, and the lists
fn decode_cut_face_open(script: &[u8], at: usize) -> Option<(Command, usize)>
    ensures { Decodes script.now at (edits read_cut_face_open (drop at script.now)) result }
{
    let Some((face, c1, s1, second)) = decode_fields::three_numbers(script, at) else {
        return None;
    };
    let Some((c2, s2, list)) = decode_fields::two_numbers(script, second) else {
        return None;
    };
    let Some((bends, first, moved, place, next)) = decode_fields::cut_lists(script, list) else {
        return None;
    };
    Some((
        Command::CutFaceOpen {
            face,
            c1,
            s1,
            c2,
            s2,
            bends,
            first,
            moved,
            place,
        },
        next,
    ))
}

// 0D: face, and the lists
fn decode_cut_face_closed(script: &[u8], at: usize) -> Option<(Command, usize)>
    ensures { Decodes script.now at (edits read_cut_face_closed (drop at script.now)) result }
{
    let Some((face, list)) = number::read_number(script, at) else {
        return None;
    };
    let Some((bends, first, moved, place, next)) = decode_fields::cut_lists(script, list) else {
        return None;
    };
    Some((
        Command::CutFaceClosed {
            face,
            bends,
            first,
            moved,
            place,
        },
        next,
    ))
}

pub fn decode(script: &[u8]) -> Option<(Command, usize)>
    ensures result_value { decoded_says script.now result ≡ found_or 2 (bytes.decode script.now) }
    ensures decoded_end { DecodedEnd script.now 1 result }
{
    if script.len() == 0 {
        return None;
    }
    let kind = script[0];
    match kind {
        1 => decode_command::decode_vertex(script, 1),
        2 => decode_open(script, 1),
        3 => decode_closed(script, 1),
        4 => decode_face(script, 1),
        5 => decode_command::decode_place(script, 1, false),
        6 => decode_command::decode_cell(script, 1, Command::Delete),
        7 => decode_command::decode_two(script, 1, Command::GlueVertices),
        8 => decode_command::decode_glue_edges(script, 1),
        9 => decode_command::decode_cell(script, 1, Command::Unglue),
        10 => decode_command::decode_two(script, 1, Command::CutEdge),
        11 => decode_command::decode_place(script, 1, true),
        12 => decode_cut_face_open(script, 1),
        13 => decode_cut_face_closed(script, 1),
        14 => decode_command::decode_cell(script, 1, Command::Uncut),
        15 => Some((Command::Renumber, 1)),
        _ => None,
    }
}
