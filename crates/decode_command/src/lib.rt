#![tactic(auto)]

// What a command is, and the kinds whose fields are numbers and positions. A reader answers a whole
// command and the place after it, if one stands there.
ghost use Rattle.std.specs.Prelude.{drop};
ghost use Rattle.complex.specs.Decode.{read_vertex, read_create, read_cell_only, read_two, read_place, read_glue_edges, edits};
ghost use Rattle.decode_command.specs.View.{Decodes, MakesOfCell, MakesOfTwo, MakesOfPlace, place_kind};

#[derive(Clone, Copy)]
pub enum Command {
    Vertex(f64, f64),
    Open {
        start: u32,
        end: u32,
        bends: u32,
        first: usize,
    },
    Closed {
        bends: u32,
        first: usize,
    },
    Face {
        cycles: u32,
        first: usize,
    },
    Move(u32, f64, f64),
    Delete(u32),
    GlueVertices(u32, u32),
    GlueEdges(u32, u32, u32),
    Unglue(u32),
    CutEdge(u32, u32),
    CutFaceVertex(u32, f64, f64),
    CutFaceOpen {
        face: u32,
        c1: u32,
        s1: u32,
        c2: u32,
        s2: u32,
        bends: u32,
        first: usize,
        moved: u32,
        place: usize,
    },
    CutFaceClosed {
        face: u32,
        bends: u32,
        first: usize,
        moved: u32,
        place: usize,
    },
    Uncut(u32),
    Renumber,
}

// 01: position
pub fn decode_vertex(script: &[u8], at: usize) -> Option<(Command, usize)>
    ensures { Decodes script.now at (edits (read_create read_vertex) (drop at script.now)) result }
{
    let Some((p, next)) = coordinate::read_position(script, at) else {
        return None;
    };
    Some((Command::Vertex(p.x, p.y), next))
}

// 06, any cell; 09 or 0E, vertex or edge
pub fn decode_cell<F: FnOnce(u32) -> Command>(
    script: &[u8],
    at: usize,
    make: F,
) -> Option<(Command, usize)>
    requires { F.IsAlwaysCallable make }
    ensures { (kind : _) → MakesOfCell kind (F.post make) → Decodes script.now at (edits (read_cell_only kind) (drop at script.now)) result }
{
    let Some((cell, next)) = number::read_number(script, at) else {
        return None;
    };
    Some((make(cell), next))
}

// 07: a, b; 0A: edge, place
pub fn decode_two<F: FnOnce(u32, u32) -> Command>(
    script: &[u8],
    at: usize,
    make: F,
) -> Option<(Command, usize)>
    requires { F.IsAlwaysCallable make }
    ensures { (kind : _) → MakesOfTwo kind (F.post make) → Decodes script.now at (edits (read_two kind) (drop at script.now)) result }
{
    let Some((a, b, next)) = decode_fields::two_numbers(script, at) else {
        return None;
    };
    Some((make(a, b), next))
}

// 08: a, b, flag
pub fn decode_glue_edges(script: &[u8], at: usize) -> Option<(Command, usize)>
    ensures { Decodes script.now at (edits read_glue_edges (drop at script.now)) result }
{
    let Some((a, b, flag, next)) = decode_fields::three_numbers(script, at) else {
        return None;
    };
    Some((Command::GlueEdges(a, b, flag), next))
}

// A cell and a position
pub fn decode_placed<F: FnOnce(u32, f64, f64) -> Command>(
    script: &[u8],
    at: usize,
    make: F,
) -> Option<(Command, usize)>
    requires { F.IsAlwaysCallable make }
    ensures { (kind : _) → MakesOfPlace kind (F.post make) → Decodes script.now at (edits (read_place kind) (drop at script.now)) result }
{
    let Some((cell, place)) = number::read_number(script, at) else {
        return None;
    };
    let Some((p, next)) = coordinate::read_position(script, place) else {
        return None;
    };
    Some((make(cell, p.x, p.y), next))
}

// 05: vertex, position; 0B: face, position
pub fn decode_place(script: &[u8], at: usize, face: bool) -> Option<(Command, usize)>
    ensures { Decodes script.now at (edits (read_place (place_kind face)) (drop at script.now)) result }
{
    if face {
        return decode_placed(script, at, Command::CutFaceVertex);
    }
    decode_placed(script, at, Command::Move)
}
