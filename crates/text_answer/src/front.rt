// A script of zeros; and a script's edition.
ghost use Rattle.std.specs.Prelude.{◌≡◌, set, replicate};
ghost use Rattle.table.specs.Words.{edition_at, script_words};

use table::{EDITION, Script};

// Zeros and nothing else.
pub fn wipe(w: &mut Script)
    ensures { w.new ≡ replicate script_words 0 }
{
    w.fill(0);
}

// The edition e, or another number that stood there.
pub fn put_edition(w: &mut Script, e: u32)
    ensures { w.new ≡ set w.old edition_at e }
{
    w[EDITION] = e;
}
