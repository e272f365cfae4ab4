#![tactic(auto)]

// What is told of a command: five numbers.
ghost use Rattle.std.specs.Prelude.{◌∷◌, [], ◌≡◌, ◌+◌, ◌≤◌, length};
ghost use Rattle.std.proofs.lemmas.List.Edits.{sets};
ghost use Rattle.entry_told.specs.Told.{line_width};

// The five numbers of a command, from a place on.
pub fn put_line(
    number: u32,
    first: u32,
    new: u32,
    removed: u32,
    left: u32,
    lines: &mut [u32],
    at: usize,
)
    requires { at + line_width ≤ length lines.old }
    ensures { lines.new ≡ sets lines.old at (number ∷ first ∷ new ∷ removed ∷ left ∷ []) }
{
    lines[at] = number;
    lines[at + 1] = first;
    lines[at + 2] = new;
    lines[at + 3] = removed;
    lines[at + 4] = left;
}
