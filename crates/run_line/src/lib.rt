// Layer 4, the program: the line that is printed for a step.
//
//   specs/Line      the bytes of labels and of a line
//   specs/Records   the records of a step, as the line is made of them
//   specs/Examples  the lines of document 01's printout, computed
//   proofs/Labels   an action of a step has the same label in the network before the step
//   proofs/Lines    the line made of the records is the line of the step
//   proofs/Fits     a line has at most 13,329 bytes
#![tactic(auto)]

ghost use Rattle.std.specs.Prelude.{◌≡◌, true, ◌≤◌, length, take};
ghost use mathlib.Core.List.{[], ◌∷◌, ◌++◌, flat_map};
ghost use Rattle.terms.specs.Names.{bytes};
ghost use Rattle.terms.specs.Same.{every};
ghost use Rattle.table.specs.Words.{name_at, loc_name, chan_name};
ghost use Rattle.table.specs.Fire.{label_of};
ghost use Rattle.calls_fire.specs.Fired.{tag_of};
ghost use Rattle.text_letters.specs.Page.{Adds};
ghost use Rattle.run_line.specs.Line.{label_text, spaced, line_text, step_labels};
ghost use Rattle.run_line.specs.Records.{label_in, may_fire, Holds};

use calls_act::naming::label_at;
use calls_fire::Label;
use table::network::Network;
use table::words::wide;
use table::{CHANNELS, IDENTIFIERS, LOCATIONS, NAME_SIZE, ROW_SIZE, Script, Words};
use text_letters::Page;

// `x@l`, where the name x stands at the word o.
fn put_named(w: &Script, o: usize, l: u32, page: &mut Page)
    ensures { Adds page.old (name_at w.now o ++ (bytes "@" ++ loc_name w.now l)) page.new }
{
    page.put_name(w, o);
    page.put(b'@');
    page.put_name(w, LOCATIONS + wide(l) * NAME_SIZE);
}

// `c<v>@l`
fn put_sent(w: &Script, c: u32, v: u32, l: u32, page: &mut Page)
    ensures { Adds page.old (chan_name w.now c ++ (bytes "<" ++ (loc_name w.now v ++ (bytes ">@" ++ loc_name w.now l)))) page.new }
{
    page.put_name(w, CHANNELS + wide(c) * NAME_SIZE);
    page.put(b'<');
    page.put_name(w, LOCATIONS + wide(v) * NAME_SIZE);
    page.put_all(b">@");
    page.put_name(w, LOCATIONS + wide(l) * NAME_SIZE);
}

// A label. Its kind is a number, as C has it.
pub fn put_label(w: &Script, x: Label, page: &mut Page)
    ensures { Adds page.old (label_text (label_of w.now (tag_of x))) page.new }
{
    if x.kind == 1 {
        put_named(w, IDENTIFIERS + wide(x.a) * ROW_SIZE, x.at, page);
    } else if x.kind == 2 {
        put_named(w, LOCATIONS + wide(x.a) * NAME_SIZE, x.at, page);
    } else {
        put_sent(w, x.a, x.b, x.at, page);
    }
}

// A space, and the label of the action of a record, which may fire.
fn put_action(net: Network, e: &[u32; 3], page: &mut Page)
    requires { may_fire net.script.now (record { c = net.words.now; n = net.n }) e.now ≡ true }
    ensures { Adds page.old (spaced (label_in net.entry.script.now (record { c = net.entry.words.now; n = net.entry.n }) e.now)) page.new }
{
    let [kind, p, q] = *e;
    let r = label_at(net, kind, wide(p), wide(q));
    page.put(b' ');
    put_label(net.script, r.label, page);
}

// The labels of the actions of the records, which may all fire.
fn put_actions(net: Network, records: &[[u32; 3]], page: &mut Page)
    requires { every (may_fire net.script.now (record { c = net.words.now; n = net.n })) records.now ≡ true }
    ensures { Adds page.old (spaced (flat_map (label_in net.entry.script.now (record { c = net.entry.words.now; n = net.entry.n })) records.now)) page.new }
{
    for e in records {
        put_action(net, e, page);
    }
}

// The line of the step at the location l, whose actions are the records; the components are those before it.
pub fn put_line(w: &Script, c: &Words, n: usize, l: u32, records: &[[u32; 3]], page: &mut Page)
    requires { Holds w.now (record { c = c.now; n = n }) l records.now (length records.now) }
    ensures { Adds page.old (line_text (loc_name w.now l) (step_labels w.now (record { c = c.entry.now; n = n }) l)) page.new }
{
    page.put_name(w, LOCATIONS + wide(l) * NAME_SIZE);
    let net = Network {
        script: w,
        words: c,
        n,
    };
    put_actions(net, records, page);
    page.put(b'\n');
}
