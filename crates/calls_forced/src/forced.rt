// The report of forced locations of a table that passes question 17. A tick that only question 13 turns down is allowed.
ghost use Rattle.std.specs.Prelude.{◌≡◌};
ghost use Rattle.calls_forced.specs.Marked.{is_marked};
ghost use Rattle.calls_forced.specs.Report.{mask, forced_test, report_of};

use super::marks::marked;
use super::{Report, ears, press};
use table::network::Network;

fn set_of(marks: &[bool; 64]) -> u64
    ensures { result ≡ mask (is_marked marks.now) 0 64 }
{
    let mut x: u64 = 0;
    for l in 0..64 {
        if marks[l] {
            x |= 1 << l;
        }
    }
    x
}

pub fn forced_valid(net: Network) -> Report
    ensures { result ≡ report_of (forced_test net.entry.script.now (record { c = net.entry.words.now; n = net.entry.n })) }
{
    let heard: [bool; 4096] = marked(net, |x| ears::ear_of(net.script, x));
    let marks: [bool; 64] = marked(net, |x| press::press_of(net.script, &heard, x));
    let set = set_of(&marks);
    Report {
        code: 0,
        set,
        count: set.count_ones(),
        lowest: set.trailing_zeros(),
    }
}
