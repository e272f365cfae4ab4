#![tactic(auto)]

// The drawing of a file's bytes in lent arrays, and whether bytes are a sound drawing's file.
ghost use Rattle.std.specs.Prelude.{◌≡◌, eqb};
ghost use Rattle.complex.specs.File.{read_file};
ghost use Rattle.call_open.specs.Taken.{OpenedIn};
ghost use Rattle.lent.specs.Sheets.{arrays, Same};

use answer::Totals;
use lent::SheetMut;

// Question 10: the drawing whose file the bytes are goes into the lent arrays, and its sums are given; none on a no, and the arrays may then
// hold anything.
pub fn open(sheet: &mut SheetMut<'_>, bytes: &[u8]) -> Option<Totals>
    ensures opened_in { OpenedIn bytes.now (arrays sheet.new) result }
    ensures same { Same sheet.old sheet.new }
{
    let Some((id, n, _)) = call_load::load(bytes, sheet, true) else {
        return None;
    };
    *sheet.next = id;
    *sheet.count = n;
    let view = sheet.view();
    call_asked::asked(&view)
}

// Question 10 alone, on arrays of its own but for those of the bends, which stay: bends are looked at in the bytes.
pub fn readable(bytes: &[u8], bx: &mut [f64; 2048], by: &mut [f64; 2048]) -> bool
    ensures value { result ≡ eqb (read_file bytes.now).number 0 }
    ensures bx_unchanged { (bx.new ≡ bx.old) × (by.new ≡ by.old) }
{
    let mut next: u32 = 1;
    let mut count: usize = 0;
    let mut ids = [0u32; 256];
    let mut kinds = [0u32; 256];
    let mut starts = [0u32; 256];
    let mut ends = [0u32; 256];
    let mut bends = [0u32; 256];
    let mut counts = [0u32; 256];
    let mut px = [0.0; 256];
    let mut py = [0.0; 256];
    let mut cycles = [0u32; 512];
    let mut steps = [0u32; 2048];
    let mut sheet = SheetMut {
        next: &mut next,
        count: &mut count,
        ids: &mut ids,
        kinds: &mut kinds,
        starts: &mut starts,
        ends: &mut ends,
        bends: &mut bends,
        counts: &mut counts,
        px: &mut px,
        py: &mut py,
        cycles: &mut cycles,
        steps: &mut steps,
        bx,
        by,
    };
    let Some((id, cells, good)) = call_load::load(bytes, &mut sheet, false) else {
        return false;
    };
    if good {
        *sheet.next = id;
        *sheet.count = cells;
        let mut table = [0u8; 1024];
        let Some(_) = lent_sound::walk(&sheet.view(), &mut table, false) else {
            return false;
        };
        return true;
    }
    false
}
