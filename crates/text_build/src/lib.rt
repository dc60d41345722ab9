// Layer 2, reading and writing: what the second pass of reading writes, for a text that has the form.
//
// specs/Keys          a word of the text as the four words of a name
// specs/Tables        names that a script holds, looked up or added
// specs/Rows          the rows of a process in a script, by numbers for names
// specs/Growth        what later writes keep
// specs/Put           the second pass on the words of a script: what it writes for a process
//
// proofs/Letters      the four words of a word are its letters
// proofs/Numbers      the numbers of names stand for the names
// proofs/Places       a test of every place of a process, taken apart
// proofs/Stands       rows that stand for a process mean it
// proofs/Into         names entered in order, each where it is not there yet
// proofs/Passes       they pass the local tests of question 17
// proofs/Kept         they go on standing while other rows and names are written
// proofs/Finding      looking a name up among the numbers of a range
// proofs/Tables       the ways of `number` to its answer
// proofs/Writes       words after a run of stores
// proofs/Stores       a run of words copied over others
// proofs/Enlist       a name looked up or added: its table afterwards
// proofs/Grows        what the writes keep of the tables
// proofs/RowWords     the words of a row after a write
// proofs/Entering     the names of a value and of a call are entered
// proofs/Numbering    the names of a part are numbered by first place
// proofs/Opening      a part's row, opened
// proofs/Puts         what the second pass writes stands for the process
// proofs/FirstPlaces  and its names are numbered by first place
// proofs/Built        so a process that was put is what its place means
#![tactic(auto)]

ghost use Rattle.std.specs.Prelude.{[], ◌∷◌, ◌≡◌, ◌+◌, ◌*◌, ◌≤◌, ◌<◌, position, get_or};
ghost use Rattle.std.proofs.lemmas.List.Edits.{sets};
ghost use Rattle.terms.specs.Names.{same_name};
ghost use Rattle.table.specs.Meaning.{list_from};
ghost use Rattle.table.specs.Tests.{key_name, row_name};
ghost use Rattle.text_build.specs.Keys.{quad_of, key_of};
ghost use Rattle.text_build.specs.Put.{row_words, set_second, linked};
ghost use Rattle.text_build.specs.Tables.{key_words, held_in, Enlisted};
ghost use Rattle.table.specs.Words.{row_size, last_name, parts_at, kind_field};

use table::{LOW_FIELD, NAME_SIZE, NEXT_FIELD, PARTS, ROW_SIZE, SECOND_FIELD, Script};

// ---- names ----
// The four bytes from o on in a word, the first lowest; 0 past the end.
fn quad(w: &[u8], o: usize) -> u32
    requires { o ≤ 12 }
    ensures { result ≡ quad_of w.now o }
{
    let byte = |i: usize| w.get(o + i).copied().unwrap_or(0);
    u32::from_le_bytes([byte(0), byte(1), byte(2), byte(3)])
}

// A word of the text as a name: proofs/Letters says that its letters are the word's.
pub fn key_of(w: &[u8]) -> table::Key
    ensures { result ≡ key_of w.now }
{
    table::Key {
        a: quad(w, 0),
        b: quad(w, 4),
        c: quad(w, 8),
        d: quad(w, 12),
    }
}

// ---- scopes ----
// The names in scope at a part: how many, and where they stand in the script. (Nothing allocates: of eight words the first n are in use.)
#[derive(Clone, Copy)]
pub struct Scope {
    pub n: usize,
    pub at: [u32; 8],
}

// ---- tables of names ----
// Writes a name from the word o on.
pub fn put_key(w: &mut Script, o: usize, k: table::Key)
    requires { o < last_name }
    ensures { w.new ≡ sets w.old o (key_words k) }
{
    w[o..o + NAME_SIZE].copy_from_slice(&[k.a, k.b, k.c, k.d]);
}

// How many names a table holds, by the word that counts them: at most 64.
pub fn held_in(w: &Script, at: usize) -> usize
    requires { at < 4 }
    ensures { result ≡ held_in w.now at }
{
    table::words::wide(w[at]).min(64)
}

// The number of the name k among the first n from the word o on, d words apart.
pub fn find(w: &Script, o: usize, d: usize, n: usize, k: table::Key) -> Option<usize>
    requires { (o < 2000) × (d ≤ row_size) × (n ≤ 64) }
    ensures { result ≡ position (λ x. same_name x (key_name k)) (list_from 0 n (row_name w.now o d)) }
{
    (0..n).position(|j| table::words::is_named(w, o + j * d, k))
}

// The number of the name k in the table from the word o on, which the word `at` counts; entered behind the last if it is not there.
// A 65th name is not entered: the word 4 says so (question 4).
pub fn number(w: &mut Script, o: usize, at: usize, k: table::Key) -> usize
    requires { (o < 2000) × (at < 4) }
    ensures { Enlisted w.old w.new o at k result }
{
    let n = held_in(w, at);
    if let Some(j) = find(w, o, NAME_SIZE, n, k) {
        return j;
    }
    if n < 64 {
        put_key(w, o + n * NAME_SIZE, k);
        w[at] = (n + 1) as u32;
    } else {
        w[4] = 1;
    }
    n
}

// ---- rows ----
// The row of a part at i up to its links: kind, name, timer, value, place of P, scope, arguments or a bound name.
pub fn put_row(
    w: &mut Script,
    i: usize,
    k: u32,
    c: u32,
    t: u32,
    v: u32,
    p: u32,
    sc: Scope,
    x: table::Key,
)
    requires { (i < 4096) × (sc.n ≤ 8) }
    ensures { w.new ≡ sets w.old (parts_at + i * row_size + kind_field) (row_words k c t v p sc (key_words x)) }
{
    let o = PARTS + i * ROW_SIZE;
    w[o..o + 9].copy_from_slice(&[k, c, t, v, p, 0, 0, 0, sc.n as u32]);
    w[o + 9..o + 17].copy_from_slice(&sc.at);
    w[o + 17..o + 24].copy_from_slice(&[x.a, x.b, x.c, x.d, 0, 0, 0]);
}

// The place of Q in the row at i.
pub fn set_second(w: &mut Script, i: usize, q: u32)
    requires { i < 4096 }
    ensures { w.new ≡ set_second w.old i q }
{
    w[PARTS + i * ROW_SIZE + SECOND_FIELD] = q;
}

// The next part and the least place in the row at i.
pub fn link(w: &mut Script, i: usize, n: u32, l: u32)
    requires { i < 4096 }
    ensures { w.new ≡ linked w.old i n l }
{
    w[PARTS + i * ROW_SIZE + NEXT_FIELD] = n;
    w[PARTS + i * ROW_SIZE + LOW_FIELD] = l;
}
