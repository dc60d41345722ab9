// What is given with a text, put into a script: its edition, and its rights.
ghost use Rattle.std.specs.Prelude.{◌≡◌, ◌+◌, ◌≤◌};
ghost use Rattle.std.proofs.lemmas.List.Edits.{sets};
ghost use Rattle.table.specs.Words.{rights_at, rights_size, script_words};
ghost use Rattle.text_answer.specs.Answer.{flags, row_words, rights_words, all_settings, under};

use crate::front::put_edition;
use crate::{Row, Settings};
use table::{LEAVE_FIELD, RECEIVE_FIELD, RIGHTS, RIGHTS_SIZE, SEND_FIELD, Script};

// How many words the rights have.
pub const RIGHTS_WORDS: usize = 64 * RIGHTS_SIZE;

// An edition with all rights.
pub fn all_rights(edition: u32) -> Settings
    ensures { result ≡ all_settings edition }
{
    Settings {
        edition,
        rights: [Row {
            send: [true; 64],
            receive: [true; 64],
            leave: [true; 64],
        }; 64],
    }
}

// The rights of one kind of a location, from the word o on: 1 for one that is given, else 0.
fn put_flags(w: &mut Script, o: usize, row: &[bool; 64])
    requires { o + 64 ≤ script_words }
    ensures { w.new ≡ sets w.old o (flags row.now) }
{
    for c in 0..64 {
        w[o + c] = u32::from(row[c]);
    }
}

// The rights of a location, from the word o on.
fn put_row(w: &mut Script, o: usize, row: &Row)
    requires { o + rights_size ≤ script_words }
    ensures { w.new ≡ sets w.old o (row_words row.now) }
{
    put_flags(w, o + SEND_FIELD, &row.send);
    put_flags(w, o + RECEIVE_FIELD, &row.receive);
    put_flags(w, o + LEAVE_FIELD, &row.leave);
}

// The rights of all locations.
fn put_rights(w: &mut Script, rights: &[Row; 64])
    ensures { w.new ≡ sets w.old rights_at (rights_words rights.now) }
{
    // by position: of a zip with `iter_mut` the proof does not know what was written
    for l in 0..64 {
        put_row(w, RIGHTS + l * RIGHTS_SIZE, &rights[l]);
    }
}

// All that is given.
pub fn put_settings(w: &mut Script, given: Settings)
    ensures { w.new ≡ under given w.old }
{
    put_edition(w, given.edition);
    put_rights(w, &given.rights);
}
