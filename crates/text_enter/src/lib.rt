// Layer 2, reading and writing: a text that passes the scan, written into the lent script, which is then asked questions 4 to 7. A refusal puts back the words
// that were kept aside before; an accepted text leaves the words behind its last row as they were.
//
// specs/Entered     what was written for a text, or its refusal
// proofs/Answering  the answer from the scan, the script and the questions asked of it
#![tactic(auto)]

ghost use Rattle.std.specs.Prelude.{◌≡◌, ◌+◌, ◌*◌, ◌^◌, ◌≤◌, ◌<◌};
ghost use Rattle.table.specs.Words.{row_size, parts_at};
ghost use Rattle.text_scan.specs.Answers.{scan_of};
ghost use Rattle.text_scan.specs.Limits.{limits};
ghost use Rattle.text_enter.specs.Entered.{Entered, Tried};

use table::{PARTS, ROW_SIZE, Script};
use terms::refusal::Refusal;
use text_asked::asked;
use text_fill::fill;
use text_scan::Scanned;

// The components of a text, as the number of a location and the place of a part.
pub type Places = [[u32; 2]; 256];

// A text that passes the scan, written into the lent script itself, which is then asked questions 4 to 7: how many components there are. A refusal leaves it
// written up to the row of its last part.
pub fn enter(text: &[u8], c: Scanned, w: &mut Script, out: &mut Places) -> Result<usize, Refusal>
    requires { (c ≡ scan_of text.now) × (limits c ≡ 0) }
    ensures { Entered text.now c.parts w.old w.new out.new result }
{
    let parts = c.parts as usize;
    w[..PARTS + parts * ROW_SIZE].fill(0);
    let n = fill(text, parts, c.definitions as usize, w, out);
    asked(w)?;
    Ok(n)
}

// The same, with the words that are written kept aside in N others: a refusal puts them back. (Not within its caller, which would need the room for these
// words on its stack while a text is scanned, whose nesting needs the most.)
#[inline(never)]
pub fn enter_kept<const N: usize>(
    text: &[u8],
    c: Scanned,
    w: &mut Script,
    out: &mut Places,
) -> Result<usize, Refusal>
    requires { (c ≡ scan_of text.now) × (limits c ≡ 0) × (parts_at + c.parts * row_size ≤ N) × (N < 2 ^ 61) }
    ensures { Tried text.now w.old w.new out.new result }
{
    let mut kept = [0u32; N];
    let m = PARTS + c.parts as usize * ROW_SIZE;
    kept[..m].copy_from_slice(&w[..m]);
    let entered = enter(text, c, w, out);
    if entered.is_err() {
        w[..m].copy_from_slice(&kept[..m]);
    }
    entered
}
