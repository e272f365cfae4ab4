#![tactic(auto)]

// How many bytes a file takes.
ghost use Rattle.std.specs.Prelude.{◌≡◌, ◌≤◌, T, take};
ghost use Rattle.complex.specs.Lists.{total};
ghost use Rattle.file_parts.specs.Parts.{SpelledNumbers};
ghost use Rattle.file_length.specs.Widths.{spell_width, shape_width, shape_spells, head_width, head_spells};

use store::{Cell, Shape};

fn shape_length(s: Shape) -> usize
    requires { T (shape_spells s) }
    ensures { result ≡ shape_width s }
{
    match s {
        Shape::Vertex(_) => 16,
        Shape::Open { start, end, bends } => {
            let a = number::number_width(start);
            let b = number::number_width(end);
            let n = number::number_width(bends);
            a + (b + n)
        }
        Shape::Closed { bends } => number::number_width(bends),
        Shape::Face { cycles } => number::number_width(cycles),
    }
}

// The bytes that a cell takes besides its bends and cycles.
pub fn head_length(c: Cell) -> usize
    requires { T (head_spells c) }
    ensures { result ≡ head_width c }
{
    let s = c.shape;
    let w = number::number_width(c.id);
    let n = shape_length(s);
    w + (1 + n)
}

// The bytes of the first n numbers.
pub fn widths(src: &[u32], n: usize) -> usize
    requires spelled_numbers { SpelledNumbers src.now 0 n }
    requires n_bound { n ≤ 2048 }
    ensures { result ≡ total spell_width (take n src.now) }
{
    let mut sum: usize = 0;
    for i in 0..n {
        let v = src[i];
        sum = sum + number::number_width(v);
    }
    sum
}
