// Layer 3, calls: the inputs that wait on each channel at a location, the one to be served first in front (document 02, R-3).
//
//   specs/Waits      the partner of an output on the table, who waits on a channel, and how two tables hold them
//
//   proofs/Partners  the partner on the table stands for the partner of the rules
//   proofs/Waiting   the first of those who wait is the partner
//   proofs/Dealing   the chains are those of who waits
#![tactic(auto)]

ghost use Rattle.std.specs.Prelude.{◌≡◌, None, ◌≤◌, ◌<◌, length, take, replicate};
ghost use Rattle.table.specs.Meaning.{comps_of};
ghost use Rattle.calls_wait.specs.Waits.{key_of, Apart, Gathered, Dealt, Queued};

use calls_must::forced;
use table::comps::comp_at;
use table::network::Network;
use table::{Comp, words};
use terms::Timer;

// A number for the component at a position, less where it is to be served first: by its timer, then by the position.
fn key_of(i: usize, x: Comp) -> u32
    requires { i < 256 }
    ensures { result ≡ key_of i x }
{
    let t = Timer { raw: x.timer };
    t.rank() * 256 + i as u32
}

// For each component that hears a channel, the channel goes into ears at its position, and a number for it into keys, in the order of positions. How many these are.
fn gather(net: Network, l: u32, ears: &mut [u32; 256], keys: &mut [u32; 256]) -> usize
    requires { (length ears.old ≡ 256) × (length keys.old ≡ 256) }
    ensures { Gathered net.entry.script.now l (comps_of (record { c = net.entry.words.now; n = net.entry.n })) ears.new keys.new result }
{
    let mut m = 0;
    for i in 0..net.n {
        let x = comp_at(net.words, i);
        if let Some(h) = forced::hears_at(net.script, l, x) {
            ears[i] = h;
            keys[m] = key_of(i, x);
            m += 1;
        }
    }
    m
}

// From the last number down, each position is put in front of the chain of its channel.
fn deal(
    keys: &[u32],
    ears: &[u32; 256],
    heads: &mut [Option<u8>; 65],
    nexts: &mut [Option<u8>; 256],
)
    requires { (length nexts.old ≡ 256) × (heads.old ≡ replicate 65 None) × Apart ears.now keys.now }
    ensures { Dealt ears.now keys.now heads.new nexts.new }
{
    for i in (0..keys.len()).rev() {
        let p = words::wide(keys[i] % 256);
        let h = words::wide(ears[p]);
        nexts[p] = heads[h];
        heads[h] = Some(p as u8);
    }
}

// For each channel the position that is served first, and from each position the next.
pub fn wait_all(net: Network, l: u32, heads: &mut [Option<u8>; 65], nexts: &mut [Option<u8>; 256])
    requires { (length nexts.old ≡ 256) × (heads.old ≡ replicate 65 None) }
    ensures { Queued net.entry.script.now l (comps_of (record { c = net.entry.words.now; n = net.entry.n })) heads.new nexts.new }
{
    let mut ears = [0u32; 256];
    let mut keys = [0u32; 256];
    let m = gather(net, l, &mut ears, &mut keys);
    ranks::sort(&mut keys, m);
    deal(&keys[..m], &ears, heads, nexts);
}
