// Marks at places, one for each component that names a place.
ghost use Rattle.std.specs.Prelude.{◌≡◌, ℕ, Option, Some, ◌<◌};
ghost use Rattle.table.specs.declared.Comp.{Comp};
ghost use Rattle.table.specs.Meaning.{comp_in, comps_of};
ghost use Rattle.calls_forced.specs.Marked.{Marked};

use table::Comp;
use table::comps::comp_at;
use table::network::Network;

// Of N places those that `place` gives for a component of the network.
pub(crate) fn marked<const N: usize, F: Fn(Comp) -> Option<usize>>(
    net: Network,
    place: F,
) -> [bool; N]
    requires asked { (j : ℕ) → j < net.n → F.pre place (comp_in net.words.now j) }
    requires within { (j k : ℕ) → j < net.n → F.post place (comp_in net.words.now j) (Some k) → k < N }
    ensures { (f : Comp → Option ℕ) → ((j : ℕ) (r : Option ℕ) → j < net.entry.n → F.post place (comp_in net.entry.words.now j) r → r ≡ f (comp_in net.entry.words.now j)) → Marked N f (comps_of (record { c = net.entry.words.now; n = net.entry.n })) result }
{
    let mut out = [false; N];
    for j in 0..net.n {
        if let Some(k) = place(comp_at(net.words, j)) {
            out[k] = true;
        }
    }
    out
}
