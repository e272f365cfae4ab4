#![tactic(auto)]

ghost use Rattle.std.specs.Prelude.{◌≡◌};
ghost use Rattle.complex.specs.Decode.{read_cycle};
ghost use Rattle.sound.specs.Rows.{rows_of};
ghost use Rattle.decode_parts.specs.Lists.{cycles_read, Stand};
ghost use Rattle.answer.specs.Questions.{no_of};
ghost use Rattle.ask_face_named.specs.Walks.{Rowed};
ghost use Rattle.ask_face.specs.Faces.{face_no};

use answer::Question;

// The places of the hints at rows.
const HINTS: usize = 256;

// Questions 4 and 6 of a new face: the first no. Cycles that join name edges,
// so 4 is asked by itself only where one does not join.
pub fn face_asked(
    script: &[u8],
    first: usize,
    k: u32,
    ids: &[u32; 256],
    kinds: &[u32; 256],
    starts: &[u32; 256],
    ends: &[u32; 256],
    n: usize,
) -> Result<(), Question>
    requires stand { Stand read_cycle script.now first k }
    requires rowed { Rowed n ids.now kinds.now starts.now ends.now }
    ensures { no_of result ≡ face_no (rows_of n ids.now kinds.now starts.now ends.now) (cycles_read script.now first k) }
{
    let mut hints = [0u8; HINTS];
    if ask_face_joins::cycles_join(script, first, k, ids, kinds, starts, ends, n, &mut hints) {
        return Ok(());
    }
    if ask_face_named::cycles_named(script, first, k, ids, kinds, n) {
        return Err(Question::Rule);
    }
    Err(Question::Live)
}
