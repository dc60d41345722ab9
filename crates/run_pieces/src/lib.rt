// Layer 4, the program: the printout of a text by pieces, a line as its step is done: `begin`, then `put_next` until it is over, or `next_piece`, which hands the
// progress on by value.
//
// specs/Pieces   the printout by pieces, and what is left of it
// proofs/Pieces  the pieces joined are the printout; the ways of the code to them
#![tactic(auto)]

ghost use Rattle.std.specs.Prelude.{true, Bool, ◌≡◌, ◌+◌, ◌-◌, ◌<◌, length, MatchOption};
ghost use Rattle.table.specs.declared.State.{State};
ghost use Rattle.table.specs.Words.{locs_in};
ghost use Rattle.table.specs.Meaning.{context_of, counted_of};
ghost use Rattle.table.specs.Valid.{valid};
ghost use Rattle.text_answer.specs.declared.Reading.{Reading};
ghost use Rattle.text_answer.specs.Answer.{ReadsOver};
ghost use Rattle.text_build.specs.Rows.{locs_of};
ghost use Rattle.run_print.specs.Print.{print_settings};
ghost use Rattle.run_print.specs.Rounds.{remaining};
ghost use Rattle.run_pieces.specs.Pieces.{playing_pieces, pieces, left_at, pieces_left, first_of, StageOk, ProgressOk, PieceAt, PieceIs};

use run_print::put_mean;
use run_turn::{put_refused, turn};
use table::words::word;
use table::{Script, State};
use text_answer::given::all_rights;
use text_letters::Page;

// What the next piece of a printout is: a refusal, by its number; or the line of the step at the location l in a round, from 0 to 3; or the network; or the
// mean; or none, after a text that was read or one that was refused.
// (The refusal is a number, since it is handed on from a reading, whose answer is the C interface's.)
#[derive(Clone, Copy)]
pub enum Stage {
    Refused(u32),
    Step { round: usize, l: u32 },
    Network,
    Mean,
    Over { read: bool },
}

// How far a printout by pieces is, and the components of its network, if the text was read. (The components stand beside the stage and not in it: an enum
// that held them was copied word by word where its variants differ, and a run took half as long again.)
#[derive(Drop)]
pub struct Progress {
    pub stage: Stage,
    pub state: State,
}

// A piece, which is the first len bytes of the lent buffer, and how far the printout is after it.
#[derive(Drop)]
pub struct Piece {
    pub len: usize,
    pub next: Progress,
}

// After the step at the location l in a round: the next location's, or the next round's first, or after four rounds the network.
fn after_step(w: &Script, round: usize, l: u32) -> Stage
    requires { (l < locs_in w.now) × (round < 4) }
    ensures { (st : State) → valid w.now st ≡ true → StageOk w.now result st × (left_at w.now result st ≡ playing_pieces (context_of w.now) (remaining (4 - round) (l + 1) (locs_of w.now)) (counted_of w.now st)) }
{
    if l + 1 < word(w, 1) {
        Stage::Step { round, l: l + 1 }
    } else if round < 3 {
        Stage::Step {
            round: round + 1,
            l: 0,
        }
    } else {
        Stage::Network
    }
}

// The line of the step at the location l in a round, or its refusal: its length.
fn put_step(w: &Script, round: usize, l: u32, now: &mut Progress, buf: &mut [u8]) -> usize
    requires { StageOk w.now (Stage.Step round l) now.old.state × (length buf.old ≡ 65536) }
    ensures { PieceAt w.now (Stage.Step round l) now.old.state buf.old buf.new (record { len = result; next = now.new }) }
{
    let mut page = Page::new(buf);
    let c = now.state.c;
    let state = State { c, n: now.state.n };
    let Some(stepped) = turn(w, state, l, &mut page) else {
        now.stage = Stage::Over { read: true };
        return page.at;
    };
    now.stage = after_step(w, round, l);
    now.state = stepped;
    page.at
}

// The network, or the refusal to write it: its length.
fn put_network(w: &Script, now: &mut Progress, buf: &mut [u8]) -> usize
    requires { StageOk w.now Stage.Network now.old.state × (length buf.old ≡ 65536) }
    ensures { PieceAt w.now Stage.Network now.old.state buf.old buf.new (record { len = result; next = now.new }) }
{
    let r = text_write::write(w, &now.state.c, now.state.n, buf);
    if r.code != 0 {
        let mut page = Page::new(buf);
        put_refused(r.code, &mut page);
        now.stage = Stage::Over { read: true };
        return page.at;
    }
    now.stage = Stage::Mean;
    r.len
}

// The start of a printout by pieces: reads the text under edition 1 and with all rights into the lent script, as `read_over` does. All its pieces are left.
pub fn begin(text: &[u8], w: &mut Script) -> Progress
    ensures { ProgressOk w.new result × (pieces_left w.new result ≡ pieces text.now) × ((r : Reading) × (result ≡ first_of r) × ReadsOver text.now print_settings w.old w.new r) }
{
    let r = text_read::read_over(text, all_rights(1), w);
    if r.code != 0 {
        return Progress {
            stage: Stage::Refused(r.code),
            state: r.state,
        };
    }
    Progress {
        stage: Stage::Step { round: 0, l: 0 },
        state: r.state,
    }
}

// The next piece, in a buffer of 65,536 bytes, with the progress moved on in place: its length, or none if the printout is over.
pub fn put_next(w: &Script, now: &mut Progress, buf: &mut [u8]) -> Option<usize>
    requires { ProgressOk w.now now.old × (length buf.old ≡ 65536) }
    ensures { MatchOption result ((now.new ≡ now.old) × ((read : Bool) × (now.old.stage ≡ Stage.Over read))) (λ len. PieceIs w.now now.old buf.old buf.new (record { len = len; next = now.new })) }
{
    match now.stage {
        Stage::Refused(code) => {
            let mut page = Page::new(buf);
            put_refused(code, &mut page);
            now.stage = Stage::Over { read: false };
            Some(page.at)
        }
        Stage::Step { round, l } => Some(put_step(w, round, l, now, buf)),
        Stage::Network => Some(put_network(w, now, buf)),
        Stage::Mean => {
            let mut page = Page::new(buf);
            put_mean(&now.state.c, &mut page);
            now.stage = Stage::Over { read: true };
            Some(page.at)
        }
        Stage::Over { read: _ } => None,
    }
}

// The same of a progress by value.
pub fn next_piece(w: &Script, c: Progress, buf: &mut [u8]) -> Option<Piece>
    requires { ProgressOk w.now c × (length buf.old ≡ 65536) }
    ensures { MatchOption result ((read : Bool) × (c.stage ≡ Stage.Over read)) (λ p. PieceIs w.now c buf.old buf.new p) }
{
    let mut next = c;
    let len = put_next(w, &mut next, buf)?;
    Some(Piece { len, next })
}
