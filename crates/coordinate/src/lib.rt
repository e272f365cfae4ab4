#![tactic(auto)]

ghost use Rattle.std.specs.Prelude.{◌≡◌, not, ◌+◌, ◌≤◌, T, length, take, drop};
ghost use Rattle.std.proofs.lemmas.List.Edits.{sets};
ghost use Rattle.std.specs.Float.Ieee.{is_nan};
ghost use Rattle.coordinate.specs.Bounds.{in_bounds, within, middle};
ghost use Rattle.coordinate.specs.Positions.{value_of, bytes_of, coordinate_in, coordinate_bytes, position_at, position_bytes, located_says, located_at};

#[derive(Clone, Copy)]
pub struct Position {
    pub x: f64,
    pub y: f64,
}

// The number in eight bytes, low byte first.
fn word(s: &[u8], at: usize) -> u64
    requires { at + 8 ≤ length s.now }
    ensures { result ≡ value_of (take 8 (drop at s.now)) }
{
    let mut n = 0u64;
    for k in (0..8).rev() {
        n = s[at + k] as u64 + 256 * n;
    }
    n
}

fn put_word(n: u64, out: &mut [u8], at: usize)
    requires { at + 8 ≤ length out.old }
    ensures { out.new ≡ sets out.old at (bytes_of 8 n) }
{
    let mut rest = n;
    for k in 0..8 {
        out[at + k] = (rest % 256) as u8;
        rest /= 256;
    }
}

// The coordinate in eight bytes. A pattern above the infinity's, sign aside, is a NaN's.
fn coordinate(s: &[u8], at: usize) -> f64
    requires { at + 8 ≤ length s.now }
    ensures { result ≡ coordinate_in (drop at s.now) }
{
    let n = word(s, at);
    if 9218868437227405312 < n % 9223372036854775808 {
        return 0.0 / 0.0;
    }
    f64::from_bits(n)
}

fn put_coordinate(x: f64, out: &mut [u8], at: usize)
    requires t { T (not (is_nan x)) }
    requires at_in_bounds { at + 8 ≤ length out.old }
    ensures { out.new ≡ sets out.old at (coordinate_bytes x) }
{
    let n = f64::to_bits(x);
    put_word(n, out, at);
}

// The position in sixteen bytes.
pub fn position_at(s: &[u8], at: usize) -> Position
    requires { at + 16 ≤ length s.now }
    ensures { result ≡ position_at s.now at }
{
    let x = coordinate(s, at);
    let y = coordinate(s, at + 8);
    Position { x, y }
}

// The position that stands at a place, and the place after it, if sixteen bytes are there.
pub fn read_position(s: &[u8], at: usize) -> Option<(Position, usize)>
    ensures { located_says result ≡ located_at s.now at }
{
    if s.len() <= at {
        return None;
    }
    if s.len() - at < 16 {
        return None;
    }
    Some((position_at(s, at), at + 16))
}

// The bytes of a position go to `at`; the place after them comes back.
pub fn put_position(p: Position, out: &mut [u8], at: usize) -> usize
    requires t { T (within p) }
    requires at_in_bounds { at + 16 ≤ length out.old }
    ensures { (result ≡ at + 16) × (out.new ≡ sets out.old at (position_bytes p)) }
{
    put_coordinate(p.x, out, at);
    put_coordinate(p.y, out, at + 8);
    at + 16
}

fn in_range(x: f64) -> bool
    ensures { result ≡ in_bounds x }
{
    x >= -1048576.0 && x <= 1048576.0
}

// Whether both coordinates are from −1,048,576 to 1,048,576; false at a NaN.
pub fn in_bounds(p: Position) -> bool
    ensures { result ≡ within p }
{
    in_range(p.x) && in_range(p.y)
}

// The middle of two positions: each sum, and each half of it, is rounded once.
pub fn midpoint(p: Position, q: Position) -> Position
    ensures { result ≡ middle p q }
{
    Position {
        x: (p.x + q.x) * 0.5,
        y: (p.y + q.y) * 0.5,
    }
}
