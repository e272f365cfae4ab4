#![tactic(auto)]

// The rest of a script, from lent arrays of any contents.
ghost use Rattle.std.specs.Prelude.{◌≡◌};
ghost use Rattle.call_asked.specs.Entries.{rest_on};
ghost use Rattle.lent.specs.Sheets.{seen};

use lent::SheetRef;

// The bytes after the command at the front of the script, or all of them at 1 and 2: a part of the caller's slice.
pub fn rest<'a>(view: &SheetRef<'_>, script: &'a [u8]) -> &'a [u8]
    ensures { result.now ≡ rest_on (seen view.now) script.now }
{
    let Some(_) = call_asked::asked(view) else {
        return script;
    };
    let Some((_, end)) = decode::decode(script) else {
        return script;
    };
    &script[end..]
}
