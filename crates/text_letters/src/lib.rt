// Layer 2, reading and writing: bytes, numbers, names and lists of names, put on a page.
//
// A page is a lent buffer and the place of the next byte. What lies past the buffer's end is counted and dropped.
//
// specs/Put       bytes put into a buffer
// specs/Page      bytes put on a page
// specs/Forms     the bytes of timers, lists and fields
//
// proofs/Puts     bytes put one after the other into a buffer
// proofs/Pages    the same on a page
// proofs/Numbers  digits as the code puts them
// proofs/Letters  the letters of a name by its words
// proofs/Lists    names between brackets
#![tactic(auto)]

ghost use Rattle.std.specs.Prelude.{◌≡◌, [], ◌∷◌, map, ◌+◌, ◌%◌, ◌≤◌, ◌<◌, length, take};
ghost use Rattle.terms.specs.Names.{bytes};
ghost use Rattle.terms.specs.Clock.{ticks_of};
ghost use Rattle.text.specs.Tokens.{digits};
ghost use Rattle.table.specs.Words.{four_bytes, strip, name_at};
ghost use Rattle.table.specs.Tests.{key_name};
ghost use Rattle.text_letters.specs.Page.{Adds};
ghost use Rattle.text_letters.specs.Forms.{timer_text, listed, fields_text};

use table::words::key_at;
use table::{Key, Script};

// The bytes that are written to, and the place in them of the next byte, which is also the number of all that were put.
#[derive(Drop)]
pub struct Page<'a> {
    buf: &'a mut [u8],
    pub at: usize,
}

// The number of letters of a word that is a name's last one: the zeros after them are no letters.
fn letters_of(x: u32) -> usize
    ensures few { result ≤ 4 }
    ensures all { strip (four_bytes x []) ≡ take result (four_bytes x []) }
{
    match x {
        0 => 0,
        1..=255 => 1,
        256..=65535 => 2,
        65536..=16777215 => 3,
        _ => 4,
    }
}

impl<'a> Page<'a> {
    // The lent bytes from the first one on.
    pub fn new(buf: &'a mut [u8]) -> Page<'a>
        ensures same_bytes { result.buf.ghost_name ≡ buf.entry.ghost_name }
        ensures begins { (result.buf.now ≡ buf.old) × (result.at ≡ 0) }
    {
        Page { buf, at: 0 }
    }

    // What was put, as far as it fits.
    pub fn text(&self) -> &[u8]
        ensures { result.now ≡ take self.now.at self.now.buf.now }
    {
        &self.buf[..self.at.min(self.buf.len())]
    }

    // One byte.
    pub fn put(&mut self, b: u8)
        ensures { Adds self.old (b ∷ []) self.new }
    {
        if self.at < self.buf.len() {
            self.buf[self.at] = b;
            self.at += 1;
        } else if self.at < 9223372036854775808 {
            self.at += 1;
        }
    }

    // All bytes of s.
    pub fn put_all(&mut self, s: &[u8])
        ensures { Adds self.old s.now self.new }
    {
        for &b in s {
            self.put(b);
        }
    }

    // ` | `, which stands between parts and between components.
    pub fn put_bar(&mut self)
        ensures { Adds self.old (bytes " | ") self.new }
    {
        self.put_all(b" | ");
    }

    // ` .` and a line feed, which end a line.
    pub fn put_end(&mut self)
        ensures { Adds self.old (bytes " .\n") self.new }
    {
        self.put_all(b" .\n");
    }

    // The digits of n, the last one apart.
    pub fn put_number(&mut self, n: u32)
        ensures { Adds self.old (digits n) self.new }
    {
        if n < 10 {
            self.put(b'0' + n as u8);
        } else {
            self.put_number(n / 10);
            self.put(b'0' + (n % 10) as u8);
        }
    }

    pub fn put_timer(&mut self, t: u32)
        ensures { Adds self.old (timer_text (ticks_of t)) self.new }
    {
        if t <= 1000000 {
            self.put_number(t);
        } else {
            self.put_all(b"inf");
        }
    }

    // The four letters of a word.
    fn put_four(&mut self, x: u32)
        ensures { Adds self.old (four_bytes x []) self.new }
    {
        self.put_all(&x.to_le_bytes());
    }

    // The letters of a name's last word.
    fn put_last(&mut self, x: u32)
        ensures { Adds self.old (strip (four_bytes x [])) self.new }
    {
        self.put_all(&x.to_le_bytes()[..letters_of(x)]);
    }

    // The letters of a name's last two words.
    fn put_two(&mut self, x: u32, y: u32)
        ensures { Adds self.old (strip (four_bytes x (four_bytes y []))) self.new }
    {
        if y == 0 {
            self.put_last(x);
        } else {
            self.put_four(x);
            self.put_last(y);
        }
    }

    // The letters of a name.
    pub fn put_key(&mut self, k: Key)
        ensures { Adds self.old (key_name k) self.new }
    {
        if k.c == 0 && k.d == 0 {
            self.put_two(k.a, k.b);
        } else {
            self.put_four(k.a);
            self.put_four(k.b);
            self.put_two(k.c, k.d);
        }
    }

    // The name that stands at the word o.
    pub fn put_name(&mut self, w: &Script, o: usize)
        ensures { Adds self.old (name_at w.now o) self.new }
    {
        self.put_key(key_at(w, o));
    }

    // Nothing, or `(x1,..)`: the names that stand at the words of the list.
    pub fn put_list(&mut self, w: &Script, words: &[usize])
        ensures { Adds self.old (listed (map (name_at w.now) words.now)) self.new }
    {
        if words.is_empty() {
            return;
        }
        let mut sign = b'(';
        for &o in words {
            self.put(sign);
            self.put_name(w, o);
            sign = b',';
        }
        self.put(b')');
    }

    // `t,x,`, where the name x stands at the word o.
    pub fn put_fields(&mut self, w: &Script, t: u32, o: usize)
        ensures { Adds self.old (fields_text (ticks_of t) (name_at w.now o)) self.new }
    {
        self.put_timer(t);
        self.put(b',');
        self.put_name(w, o);
        self.put(b',');
    }
}
