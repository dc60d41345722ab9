// The test of a location, in one pass over the components: the place of each sender and receiver is noted, and must not come again.
ghost use Rattle.std.specs.Prelude.{◌≡◌};
ghost use Rattle.table.specs.Meaning.{comps_of};
ghost use Rattle.calls_profile.specs.Roles.{role_of, apart};

use super::roles::{PLACES, Role, role_of};
use table::comps::comp_at;
use table::network::Network;

pub fn conforms_at(net: Network, l: u32) -> bool
    ensures { result ≡ apart (role_of net.entry.script.now l) (comps_of (record { c = net.entry.words.now; n = net.entry.n })) }
{
    let mut taken = [false; PLACES];
    for j in 0..net.n {
        let x = comp_at(net.words, j);
        match role_of(net.script, l, x) {
            Role::Place(k) => {
                if taken[k] {
                    return false;
                }
                taken[k] = true;
            }
            Role::Nothing => {}
            Role::Late => return false,
        }
    }
    true
}
