// Layer 4, the program: the printout of a text, as document 01 says of `timorun`, whole in a lent buffer. By pieces: run_pieces.
//
// specs/Print     the printout
// specs/Rounds    the locations whose steps are left
// specs/Examples  document 01's own printout, computed
// proofs/Playing  the ways of the code to the printout
// proofs/Means    how long the line of the mean is
// proofs/Fits     what its parts add to its length, which is at most 3,477,768
#![tactic(auto)]

ghost use Rattle.std.specs.Prelude.{true, ◌≡◌, ◌+◌, ◌*◌, ◌≤◌, length, take};
ghost use Rattle.waits.specs.Mean.{mean_of};
ghost use Rattle.text_letters.specs.Put.{Wrote};
ghost use Rattle.text_letters.specs.Page.{Adds};
ghost use Rattle.table.specs.Meaning.{context_of, total_in, count_in, counted_of};
ghost use Rattle.table.specs.Valid.{valid};
ghost use Rattle.text_build.specs.Rows.{locs_of};
ghost use Rattle.run_print.specs.Print.{mean_text, ending, four, playing, printout};

use calls_mean::mean_of;
use run_turn::{put_refused, turn};
use table::words::word;
use table::{SCRIPT_WORDS, Script, State, Words};
use text_answer::given::all_rights;
use text_letters::Page;
use waits::rounded;

// The line of the mean: rounded to a whole tick, or `-` where there were no messages.
pub fn put_mean(c: &Words, page: &mut Page)
    requires { (count_in c.now ≤ 1000000) × (total_in c.now ≤ 1000000 * count_in c.now) }
    ensures { Adds page.old (mean_text (mean_of (total_in c.now) (count_in c.now))) page.new }
{
    let m = mean_of(c);
    if m.count == 0 {
        page.put_all(b"-\n");
    } else {
        page.put_number(rounded(m.quotient, m.remainder, m.count));
        page.put(b'\n');
    }
}

// The network, in 65,536 bytes, and the mean, or the refusal to write the network.
fn put_network(w: &Script, st: State, page: &mut Page)
    requires { valid w.now st ≡ true }
    ensures { Adds page.old (ending (context_of w.now) (counted_of w.now st)) page.new }
{
    let mut text = [0; 65536];
    let r = text_write::write(w, &st.c, st.n, &mut text);
    if r.code != 0 {
        put_refused(r.code, page);
    } else {
        page.put_all(&text[..r.len]);
        put_mean(&st.c, page);
    }
}

// Four rounds of steps over all locations by number, then the network and the mean. That is at most 4 rounds of 64 lines of 13,329 bytes, 65,536 bytes and 8.
fn play(w: &Script, st: State, page: &mut Page)
    requires { valid w.now st ≡ true }
    ensures { Adds page.old (playing (context_of w.now) (four (locs_of w.now)) (counted_of w.now st)) page.new × (page.new.at ≤ page.old.at + 3477768) }
{
    let n = word(w, 1);
    let mut now = st;
    for round in 0..4usize {
        for l in 0..n {
            let Some(next) = turn(w, now, l, page) else {
                return;
            };
            now = next;
        }
    }
    put_network(w, now, page);
}

// The printout of a text.
fn put_printout(text: &[u8], page: &mut Page)
    ensures { Adds page.old (printout text.now) page.new × (page.new.at ≤ page.old.at + 3477768) }
{
    let mut w = [0; SCRIPT_WORDS];
    let r = text_read::read(text, all_rights(1), &mut w);
    if r.code != 0 {
        put_refused(r.code, page);
    } else {
        play(&w, r.state, page);
    }
}

// The printout of a text, under edition 1 and with all rights, from the buffer's first byte on: its length, which is at most 3,477,768. Bytes behind the buffer's end are counted and
// dropped.
pub fn printout(text: &[u8], buf: &mut [u8]) -> usize
    ensures { Wrote buf.old 0 (printout text.now) buf.new result × (result ≤ 3477768) }
{
    let mut page = Page::new(buf);
    put_printout(text, &mut page);
    page.at
}
