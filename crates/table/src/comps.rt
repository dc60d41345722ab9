// A component among those of a state, which are lent: a state that goes into a function is copied.
ghost use Rattle.std.specs.Prelude.{◌≡◌, ◌*◌, ◌<◌, length};
ghost use Rattle.std.proofs.lemmas.List.Edits.{sets};
ghost use Rattle.table.specs.Meaning.{comp_in, words_in};
ghost use Rattle.table.specs.Words.{comp_size, state_words};

use super::{COMP_SIZE, Comp, Words};

// Nothing to run: of an array by value the number of words is known, and of one behind a reference it is not. `sized(*c)` says it of a lent one.
pub fn sized(c: Words)
    ensures { length c ≡ state_words }
{}

// The component at position i.
pub fn comp_at(c: &Words, i: usize) -> Comp
    requires { i < 256 }
    ensures { result ≡ comp_in c.now i }
{
    let o = i * COMP_SIZE;
    let mut vals = [0; 8];
    vals.copy_from_slice(&c[o + 4..o + 12]);
    Comp {
        loc: c[o],
        mark: c[o + 1],
        place: c[o + 2],
        timer: c[o + 3],
        vals,
        wait: c[o + 12],
    }
}

// x at position i. The spare words there stay as they are.
pub fn put_comp(c: &mut Words, i: usize, x: Comp)
    requires { i < 256 }
    ensures { c.new ≡ sets c.old (i * comp_size) (words_in x) }
{
    let o = i * COMP_SIZE;
    c[o] = x.loc;
    c[o + 1] = x.mark;
    c[o + 2] = x.place;
    c[o + 3] = x.timer;
    c[o + 4..o + 12].copy_from_slice(&x.vals);
    c[o + 12] = x.wait;
}
