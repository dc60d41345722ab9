// The actions of a step: through the positions upward once. Who hears a channel is found beforehand, as a chain of positions for each channel, the partner of
// the next output in front.
ghost use Rattle.std.specs.Prelude.{◌≡◌, true, Some, ◌+◌, ◌<◌, ◌≤◌, length};
ghost use Rattle.table.specs.Valid.{script_ok, comp_ok, valid};
ghost use Rattle.calls_sweep.specs.Visit.{sends_by, act_of, act_by, Performed, other_of, rec_by, sent_by, wait_by, SweepsAs};
ghost use Rattle.table.specs.Words.{state_words};

use super::{Act, Swept, Visit};
use calls_fire::fire;
use calls_fire::rights::right_in;
use calls_must::forced;
use calls_wait::wait_all;
use table::comps::{comp_at, put_comp};
use table::network::Network;
use table::{Comp, Head, Script, Words, words};

// The place of a channel in the table of those who wait. 64 for none, and no Option: the table has a spare place there, so that the sweep reads and writes it
// with no test.
fn sends_by(w: &Script, c: Comp, h: Head) -> u32
    ensures { result ≡ sends_by w.now c h }
{
    if right_in(w, c, h) {
        return forced::sent_on(h).unwrap_or(64);
    }
    64
}

fn act_of(h: Head) -> Option<Act>
    ensures { result ≡ act_of h }
{
    match h {
        Head::Stop => None,
        Head::Go(_, _, _) => Some(Act::Moves),
        Head::Out(_, _, _, _, _) => Some(Act::Sends),
        Head::In(_, _, _, _, _) => None,
        Head::Call(_, _) => Some(Act::Calls),
    }
}

// What a ready component with the head h does; x is the first that hears its channel.
fn act_by(w: &Script, x: Option<u8>, c: Comp, h: Head) -> Option<Act>
    ensures { result ≡ act_by w.now x c h }
{
    if forced::must_act(w, x.is_some(), c, h) {
        return act_of(h);
    }
    None
}

// What is refused stays as it is.
fn perform(w: &Script, a: Act, c: Comp, e: Comp) -> Visit
    requires { (script_ok w.now ≡ true) × (comp_ok w.now c ≡ true) × (comp_ok w.now e ≡ true) }
    ensures { Performed w.now (Some a) c e result }
{
    let stays = Visit { x: c, y: e };
    match a {
        Act::Calls => fire::fire_call(w, c).map_or(
            stays,
            |f| Visit {
                x: f.comp,
                y: f.comp,
            },
        ),
        Act::Moves => fire::fire_move(w, c).map_or(
            stays,
            |f| Visit {
                x: f.comp,
                y: f.comp,
            },
        ),
        Act::Sends => fire::fire_pair(w, c, e).map_or(
            stays,
            |m| Visit {
                x: m.sender,
                y: m.receiver,
            },
        ),
    }
}

// The position of the partner, or the own one.
fn other_of(p: usize, x: Option<u8>) -> usize
    ensures { result ≡ other_of p x }
{
    x.map_or(p, usize::from)
}

fn rec_by(a: Act, p: usize, q: usize) -> [u32; 3]
    requires { (p < 256) × (q < 256) }
    ensures { result ≡ rec_by a p q }
{
    match a {
        Act::Calls => [1, p as u32, 0],
        Act::Moves => [2, p as u32, 0],
        Act::Sends => [3, p as u32, q as u32],
    }
}

// One message more where one is sent.
fn sent_with(sent: u32, a: Act) -> u32
    requires { sent ≤ 256 }
    ensures { result ≡ sent + sent_by (Some a) }
{
    match a {
        Act::Sends => sent + 1,
        _ => sent,
    }
}

// And the wait of its sender.
fn waited_with(sum: usize, a: Act, wait: u32) -> usize
    requires { (sum ≤ 1000000000000) × (wait ≤ 1000000) }
    ensures { result ≡ sum + wait_by (Some a) wait }
{
    match a {
        Act::Sends => sum + words::wide(wait),
        _ => sum,
    }
}

// The actions in order. Their records are the first of acts, which has room for one at each position, and the components are left as they leave them. Nothing
// is counted yet.
pub fn sweep(w: &Script, c: &mut Words, n: usize, l: u32, acts: &mut [[u32; 3]]) -> Swept
    requires { (valid w.now (record { c = c.now; n = n }) ≡ true) × (length c.now ≡ state_words) × (n ≤ length acts.old) }
    ensures { SweepsAs w.now l (record { c = c.entry.now; n = n }) c.exit.now acts.old acts.new result.count result.sent result.sum }
{
    let mut heads = [None; 65];
    let mut nexts = [None; 256];
    let net = Network {
        script: w,
        words: &*c,
        n,
    };
    wait_all(net, l, &mut heads, &mut nexts);
    let mut count = 0;
    let mut sent = 0;
    let mut sum = 0;
    for p in 0..n {
        let d = comp_at(c, p);
        if !forced::ready_at(l, d) {
            continue;
        }
        let h = words::head_at(w, words::wide(d.place));
        let s = words::wide(sends_by(w, d, h));
        let x = heads[s];
        let Some(a) = act_by(w, x, d, h) else {
            continue;
        };
        let q = other_of(p, x);
        let e = comp_at(c, q);
        let v = perform(w, a, d, e);
        put_comp(c, p, v.x);
        put_comp(c, q, v.y);
        acts[count] = rec_by(a, p, q);
        count += 1;
        heads[s] = x.and(nexts[q]);
        sent = sent_with(sent, a);
        sum = waited_with(sum, a, d.wait);
    }
    Swept { count, sent, sum }
}
