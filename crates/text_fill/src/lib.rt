// Layer 2, reading and writing: the passes of the call `read` over a text that has the form: its parts, definitions and names are written into the rows and
// tables of a script, and the places of its components into an array.
//
// specs/Ready    a text that has the form and keeps the limits that the scan knows
// specs/Spread   the places of components, gathered in an array
// specs/Located  located processes at a position of a text
//
// definitions  heads and bodies of definitions
// network      located processes, and where their components stand
//
// proofs/Defs       definitions, one after the other
// proofs/Spreading  places gathered in an array
// proofs/Bracketed  located processes, one after the other
// proofs/Passes     the network behind the definitions, and the three passes together
// proofs/Keeping    what each write of the passes keeps, all of them keep
// proofs/Quiet      what the passes leave as it was below the rows
// proofs/Beyond     and behind the last row
#![tactic(auto, unfolding(text::specs::Tokens::lex_from, terms::specs::Characters::class_of))]

ghost use Rattle.std.specs.Prelude.{◌≤◌, ◌<◌};
ghost use Rattle.text_put.specs.Found.{Gives};
ghost use Rattle.text_fill.specs.Ready.{Ready, tree_in, AllPut, Filled};

use definitions::{put_bodies, put_heads};
use network::put_network;
use table::Script;

mod definitions;
mod network;

// Where a definition or a located process ends, and the next place.
#[derive(Clone, Copy)]
pub struct Passed {
    pub end: usize,
    pub place: usize,
}

// Where a process ends, its least place, and how many components there are.
#[derive(Clone, Copy)]
pub struct Spotted {
    pub end: usize,
    pub low: usize,
    pub n: usize,
}

// The three passes over a text, its first part at i: how many components there are.
fn put_all(s: &[u8], w: &mut Script, i: usize, out: &mut [[u32; 2]]) -> Option<usize>
    requires { (i < 4096) × Ready s.now }
    ensures { (x : Ready s.now) → Gives (λ n. AllPut w.old w.new i out.old out.new n (tree_in x)) result }
{
    put_heads(s, w, i)?;
    let b = put_bodies(s, w, i)?;
    put_network(s, b.end, w, b.place, out)
}

// The same, into a script with zeros up to the last row.
pub fn fill(s: &[u8], parts: usize, defs: usize, w: &mut Script, out: &mut [[u32; 2]]) -> usize
    requires { (parts ≤ 4096) × (defs ≤ 32) × Ready s.now }
    ensures { (x : Ready s.now) → Filled w.old w.new parts defs out.old out.new result (tree_in x) }
{
    w[0] = parts as u32;
    w[3] = defs as u32;
    put_all(s, w, parts.saturating_sub(1), out).unwrap_or(0)
}
