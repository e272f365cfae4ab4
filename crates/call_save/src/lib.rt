#![tactic(auto)]

// The file of sound arrays whose sums are not known.
ghost use Rattle.std.specs.Prelude.{T};
ghost use Rattle.lent.specs.Arrays.{sound_arrays};
ghost use Rattle.call_save.specs.Saved.{SavedIn};
ghost use Rattle.lent.specs.Sheets.{seen};

use file_write::Written;
use lent::SheetRef;

// The file, in the buffer's first places: 0 or 9, and the count of its bytes. Question 1 need not be asked: the sums alone are counted.
pub fn write_sound(view: &SheetRef<'_>, buffer: &mut [u8]) -> Written
    requires { T (sound_arrays (seen view.now)) }
    ensures { SavedIn (seen view.now) buffer.old buffer.new result }
{
    let t = lent_sums::sums(view);
    call_write::write(view, t, buffer)
}
