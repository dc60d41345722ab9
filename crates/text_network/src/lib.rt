// Layer 2, reading and writing: definitions, components, and the whole text of a network in its table form, in a lent buffer.
//
// specs/Forms      the bytes of definitions and components
// specs/Text       the text of a table, and question 14
//
// proofs/Spelled   the bytes of each form are the spelling of its tokens
// proofs/Networks  the text of a table
#![tactic(auto)]

ghost use Rattle.std.specs.Prelude.{◌≡◌, true, map, ◌≤◌, ◌<◌};
ghost use Rattle.table.specs.Words.{defs_in};
ghost use Rattle.table.specs.Meaning.{def_of, defs_of, means, net_of};
ghost use Rattle.table.specs.Valid.{script_ok, comp_ok};
ghost use Rattle.text_letters.specs.Put.{Wrote};
ghost use Rattle.text_letters.specs.Page.{Adds};
ghost use Rattle.text_network.specs.Forms.{def_text, defs_text, comp_text, net_text};
ghost use Rattle.text_network.specs.Text.{text_of, no_mark};

use table::comps::comp_at;
use table::network::Network;
use table::words::{arity_of, body_of, wide, word};
use table::{
    Comp, FIRST_PARAM, FOURTH_PARAM, IDENTIFIERS, LOCATIONS, NAME_SIZE, ROW_SIZE, SECOND_PARAM,
    Script, THIRD_PARAM,
};
use text_letters::Page;
use text_process::{write_part, write_process};

// The definition d, on a line.
fn write_def(w: &Script, d: usize, page: &mut Page)
    requires { (script_ok w.now ≡ true) × (d < defs_in w.now) }
    ensures { Adds page.old (def_text (def_of w.now d)) page.new }
{
    let o = [
        FIRST_PARAM + d * ROW_SIZE,
        SECOND_PARAM + d * ROW_SIZE,
        THIRD_PARAM + d * ROW_SIZE,
        FOURTH_PARAM + d * ROW_SIZE,
    ];
    page.put_name(w, IDENTIFIERS + d * ROW_SIZE);
    page.put_list(w, &o[..wide(arity_of(w, d))]);
    page.put_all(b" = ");
    write_process(w, wide(body_of(w, d)), &[64; 8], page);
    page.put_end();
}

// All definitions, in table order.
fn write_defs(w: &Script, page: &mut Page)
    requires { script_ok w.now ≡ true }
    ensures { Adds page.old (defs_text (defs_of w.now)) page.new }
{
    for d in 0..wide(word(w, 3)) {
        write_def(w, d, page);
    }
}

// An unmarked component: its one part in brackets, after its location.
fn write_comp(w: &Script, c: Comp, page: &mut Page)
    requires { (script_ok w.now ≡ true) × (comp_ok w.now c ≡ true) × (64 ≤ c.mark) }
    ensures { Adds page.old (comp_text (means w.now c)) page.new }
{
    page.put_name(w, LOCATIONS + wide(c.loc) * NAME_SIZE);
    page.put(b'[');
    write_part(w, wide(c.place), c.timer, &c.vals, page);
    page.put(b']');
}

// The line of the components, in order.
fn write_comps(net: Network, page: &mut Page)
    requires { no_mark net.script.now (record { c = net.words.now; n = net.n }) ≡ true }
    ensures { Adds page.old (net_text (map comp_text (net_of net.entry.script.now (record { c = net.entry.words.now; n = net.entry.n })))) page.new }
{
    write_comp(net.script, comp_at(net.words, 0), page);
    for k in 1..net.n {
        page.put_bar();
        write_comp(net.script, comp_at(net.words, k), page);
    }
    page.put_end();
}

// The whole text, from the start of the buffer on.
pub fn write_text(net: Network, buf: &mut [u8]) -> usize
    requires { no_mark net.script.now (record { c = net.words.now; n = net.n }) ≡ true }
    ensures { Wrote buf.old 0 (text_of net.entry.script.now (record { c = net.entry.words.now; n = net.entry.n })) buf.new result }
{
    let mut page = Page::new(buf);
    write_defs(net.script, &mut page);
    write_comps(net, &mut page);
    page.at
}
