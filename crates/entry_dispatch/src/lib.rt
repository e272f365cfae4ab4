#![tactic(auto)]

// A decoded command, handed to its kind.
ghost use Rattle.decode_command.specs.View.{order_of, ListsLie};
ghost use Rattle.lent.specs.Replies.{Ready, Carried, line_says};
ghost use Rattle.lent.specs.Sheets.{arrays, Same};

use answer::{Question, Totals};
use coordinate::Position;
use decode_command::Command;
use lent::{Change, SheetMut};

// Questions 3 to 8 and the rules of the command's kind, on sound arrays; its lists lie in the script. 0F asks none of them.
pub fn obey(
    sheet: &mut SheetMut<'_>,
    t: Totals,
    script: &[u8],
    c: Command,
) -> Result<Change, Question>
    requires ready { Ready (arrays sheet.old) t }
    requires lists_lie { ListsLie script.now c }
    ensures carried { Carried (arrays sheet.old) (order_of script.now c) (arrays sheet.new) (line_says result) }
    ensures same { Same sheet.old sheet.new }
{
    match c {
        Command::Vertex(x, y) => kind_create::add_vertex(sheet, t, Position { x, y }),
        Command::Open {
            start,
            end,
            bends: k,
            first,
        } => kind_create::add_open(sheet, t, script, start, end, k, first),
        Command::Closed { bends: k, first } => kind_create::add_closed(sheet, t, script, k, first),
        Command::Face { cycles: k, first } => kind_face::add_face(sheet, t, script, k, first),
        Command::Move(vertex, x, y) => kind_move::move_vertex(sheet, t, vertex, Position { x, y }),
        Command::Delete(cell) => kind_delete::delete_cell(sheet, t, cell),
        Command::GlueVertices(a, b) => kind_glue::glue_vertices(sheet, t, a, b),
        Command::GlueEdges(a, b, flag) => kind_glue::glue_edges(sheet, t, a, b, flag),
        Command::Unglue(cell) => kind_unglue::unglue(sheet, t, cell),
        Command::CutEdge(edge, q) => kind_cut_edge::cut_edge(sheet, t, edge, q),
        Command::CutFaceVertex(face, x, y) => kind_cut_face::cut_face_vertex(
            sheet,
            t,
            face,
            Position { x, y },
        ),
        Command::CutFaceOpen {
            face,
            c1,
            s1,
            c2,
            s2,
            bends: k,
            first,
            moved,
            place,
        } => kind_cut_along::cut_face_open(
            sheet, t, script, face, c1, s1, c2, s2, k, first, moved, place,
        ),
        Command::CutFaceClosed {
            face,
            bends: k,
            first,
            moved,
            place,
        } => kind_cut_round::cut_face_closed(sheet, t, script, face, k, first, moved, place),
        Command::Uncut(cell) => kind_uncut::uncut(sheet, t, cell),
        Command::Renumber => kind_renumber::renumber(sheet, t),
    }
}
