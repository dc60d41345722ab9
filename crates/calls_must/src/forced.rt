// Is the tick at l not allowed? First the channels that are heard there, then each component by itself.
ghost use Rattle.std.specs.Prelude.{◌≡◌, true, false, get_or, unwrap_or};
ghost use Rattle.table.specs.Meaning.{comps_of};
ghost use Rattle.table.specs.Valid.{script_ok, comp_ok};
ghost use Rattle.table.specs.Fire.{ready_at, sent_on, would_act, must_act, forced_at};
ghost use Rattle.calls_must.specs.Heard.{heard_on, hears_at, sends_on, Heard, pressed_by};

use calls_fire::rights::right_in;
use table::comps::comp_at;
use table::network::Network;
use table::{Comp, Head, Script, words};
use terms::Timer;

pub fn ready_at(l: u32, c: Comp) -> bool
    ensures { result ≡ ready_at l c }
{
    64 <= c.mark && c.loc == l
}

fn heard_on(h: Head) -> Option<u32>
    ensures { result ≡ heard_on h }
{
    match h {
        Head::In(d, _, _, _, _) => Some(d),
        _ => None,
    }
}

pub fn hears_at(w: &Script, l: u32, c: Comp) -> Option<u32>
    requires { (script_ok w.now ≡ true) × (comp_ok w.now c ≡ true) }
    ensures { result ≡ hears_at w.now l c }
{
    if !ready_at(l, c) {
        return None;
    }
    heard_on(words::head_at(w, words::wide(c.place)))
}

// The channels that are heard.
fn heard_at(net: Network, l: u32) -> [bool; 64]
    ensures { Heard net.entry.script.now l (comps_of (record { c = net.entry.words.now; n = net.entry.n })) result }
{
    let mut heard = [false; 64];
    for j in 0..net.n {
        let x = comp_at(net.words, j);
        if let Some(d) = hears_at(net.script, l, x) {
            heard[words::wide(d)] = true;
        }
    }
    heard
}

// The channel of an output.
pub fn sent_on(h: Head) -> Option<u32>
    ensures which { result ≡ sends_on h }
    ensures number { unwrap_or result 64 ≡ sent_on h }
{
    match h {
        Head::Out(d, _, _, _, _) => Some(d),
        _ => None,
    }
}

// Would c, a ready component with the head h, act before a tick if it had its right? `heard` says whether the channel that it sends on is heard.
fn would_act(heard: bool, c: Comp, h: Head) -> bool
    ensures { result ≡ would_act heard c h }
{
    match h {
        Head::Stop => false,
        Head::Go(_, _, _) => {
            let t = Timer { raw: c.timer };
            t.is_due()
        }
        Head::Out(_, _, _, _, _) => heard,
        Head::In(_, _, _, _, _) => false,
        Head::Call(_, _) => true,
    }
}

// Must it act before a tick?
pub fn must_act(w: &Script, heard: bool, c: Comp, h: Head) -> bool
    ensures { result ≡ must_act w.now heard c h }
{
    would_act(heard, c, h) && right_in(w, c, h)
}

// Is the place k marked? Past the last place nothing is.
pub fn is_marked(marks: &[bool], k: usize) -> bool
    ensures { result ≡ get_or marks.now k false }
{
    marks.get(k).copied().unwrap_or(false)
}

fn pressed_by(w: &Script, l: u32, ears: &[bool; 64], c: Comp) -> bool
    requires { (script_ok w.now ≡ true) × (comp_ok w.now c ≡ true) }
    ensures { result ≡ pressed_by w.now l ears.now c }
{
    if !ready_at(l, c) {
        return false;
    }
    let h = words::head_at(w, words::wide(c.place));
    let heard = sent_on(h).is_some_and(|d| is_marked(ears, words::wide(d)));
    must_act(w, heard, c, h)
}

pub fn forced_at(net: Network, l: u32) -> bool
    ensures { result ≡ forced_at net.entry.script.now l (comps_of (record { c = net.entry.words.now; n = net.entry.n })) }
{
    let ears = heard_at(net, l);
    (0..net.n).any(|j| pressed_by(net.script, l, &ears, comp_at(net.words, j)))
}
