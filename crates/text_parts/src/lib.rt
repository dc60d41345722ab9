// Layer 2, reading and writing: parts and processes over the bytes of a text, with the numbers of them that questions 3 and 4 limit.
//
// Process reader and part reader call each other, the bytes left falling. Each answers with the position behind what it read and with
// numbers that stop one past their limit, so that nothing overflows, or with None. A level of nesting costs less than 200 bytes of stack.
//
// specs/Openings    a part up to its first process
// specs/Counts      nesting, parts and width of a process
// specs/Counting    the grammar's readers, giving these numbers
// specs/Answers     what the code's answers stand for
//
// proofs/Rests      laws of what readers give
// proofs/Stops      sums that stop at a limit
// proofs/Fields     fields, names in brackets, openings
// proofs/Gathering  a loop over things joined by a sign, stated once
// proofs/Processes  the numbers of parts and processes by the grammar's equations
// proofs/Cycle      the ways of the two readers through the code
#![tactic(auto, unfolding(text::specs::Tokens::lex_from, terms::specs::Characters::class_of))]

ghost use Rattle.std.specs.Prelude.{◌≡◌, Some, drop};
ghost use Rattle.text.specs.Tokens.{lex};
ghost use Rattle.text.specs.Grammar.{list_of, a_value};
ghost use Rattle.text_words.specs.Bytes.{ended, mapped, skim};
ghost use Rattle.text_words.specs.Sorts.{fits, head_is};
ghost use Rattle.text_parts.specs.Openings.{field_form, go_form, pair_form, comm_form, open_form, an_opening};
ghost use Rattle.text_parts.specs.Counts.{capped};
ghost use Rattle.text_parts.specs.Counting.{names_form, names_count, list_count, part_counts, process_counts};
ghost use Rattle.text_parts.specs.declared.Form.TheVariants.{Leaf};
ghost use Rattle.text_parts.specs.Answers.{began, listed, sized, size_in, joined_size, closed_size};

use text_words::{Field, Sort, eat, field_at, skip_blanks, sort_of, word_end};

// ---- a part up to its first process ----
// A part is over, or one or two processes are to come.
#[derive(Clone, Copy, PartialEq, Eq)]
pub enum Form {
    Leaf,
    One,
    Two,
}

// Where the part is over, or its first process begins.
#[derive(Clone, Copy)]
pub struct Begun {
    pub end: usize,
    pub form: Form,
}

// A word of the field's sort, and a comma.
fn comma_field(s: &[u8], at: usize, f: Field) -> Option<usize>
    ensures { ended s.now result ≡ field_form (fits f) (lex (drop at s.now)) }
{
    let a = field_at(s, at, f)?;
    eat(s, a, b',')
}

// After `go`: `(t,v,`.
fn go_begin(s: &[u8], at: usize) -> Option<Begun>
    ensures { began s.now result ≡ go_form (lex (drop at s.now)) }
{
    let a = eat(s, at, b'(')?;
    let b = comma_field(s, a, Field::Timer)?;
    let e = comma_field(s, b, Field::Value)?;
    Some(Begun {
        end: e,
        form: Form::One,
    })
}

// A timer and a field, each with its comma.
fn pair_fields(s: &[u8], at: usize, f: Field) -> Option<usize>
    ensures { ended s.now result ≡ pair_form (fits f) (lex (drop at s.now)) }
{
    let a = comma_field(s, at, Field::Timer)?;
    comma_field(s, a, f)
}

// After `out` or `in`: `(c,t,` and the third field with its comma.
fn comm_begin(s: &[u8], at: usize, f: Field) -> Option<Begun>
    ensures { began s.now result ≡ comm_form (fits f) (lex (drop at s.now)) }
{
    let a = eat(s, at, b'(')?;
    let b = comma_field(s, a, Field::Small)?;
    let e = pair_fields(s, b, f)?;
    Some(Begun {
        end: e,
        form: Form::Two,
    })
}

// Names in brackets: where they end, and how many, at most 5.
#[derive(Clone, Copy)]
pub struct Names {
    pub end: usize,
    pub count: u16,
}

// Names joined by commas, and `)`.
fn names_at(s: &[u8], at: usize, f: Field) -> Option<Names>
    ensures { listed s.now result ≡ mapped names_count (names_form (fits f) (lex (drop at s.now))) }
{
    let mut here = at;
    let mut n: u16 = 0;
    loop {
        let a = field_at(s, here, f)?;
        n = n.saturating_add(1).min(5);
        let Some(b) = eat(s, a, b',') else {
            let e = eat(s, a, b')')?;
            return Some(Names { end: e, count: n });
        };
        here = b;
    }
}

// Nothing, or `(x1,..)`.
pub fn list_of(s: &[u8], at: usize, f: Field) -> Option<Names>
    ensures { listed s.now result ≡ list_count (fits f) (lex (drop at s.now)) }
{
    match eat(s, at, b'(') {
        None => Some(Names { end: at, count: 0 }),
        Some(a) => names_at(s, a, f),
    }
}

// The end of a call behind its identifier.
fn call_end(s: &[u8], at: usize) -> Option<usize>
    ensures { ended s.now result ≡ skim (list_of a_value) (lex (drop at s.now)) }
{
    let n = list_of(s, at, Field::Value)?;
    Some(n.end)
}

// Behind a part that is over.
fn leaf(e: usize) -> Option<Begun>
    ensures { result ≡ Some (record { end = e; form = Leaf }) }
{
    Some(Begun {
        end: e,
        form: Form::Leaf,
    })
}

// What follows the first word of a part, by the word's sort.
fn begin_by(s: &[u8], at: usize, k: Sort) -> Option<Begun>
    ensures { began s.now result ≡ open_form (head_is k) (lex (drop at s.now)) }
{
    match k {
        Sort::Stop => leaf(at),
        Sort::Go => go_begin(s, at),
        Sort::Out => comm_begin(s, at, Field::Value),
        Sort::In => comm_begin(s, at, Field::Small),
        Sort::Small | Sort::Location => leaf(call_end(s, at)?),
        Sort::Inf | Sort::Ticks | Sort::Other => None,
    }
}

// Where a part begins. (Not within the two readers below, whose levels of nesting it would make larger.)
#[inline(never)]
fn begin(s: &[u8], at: usize) -> Option<Begun>
    ensures { began s.now result ≡ an_opening (lex (drop at s.now)) }
{
    let a = skip_blanks(s, at);
    let e = word_end(s, a);
    if a < e {
        return begin_by(s, e, sort_of(&s[a..e]));
    }
    None
}

// ---- parts and processes ----
// Where a part or process ends, with its deepest nesting (its outermost parts have 1), its parts at any depth and its outermost parts.
#[derive(Clone, Copy)]
pub struct Size {
    pub end: usize,
    pub nesting: u16,
    pub parts: u16,
    pub width: u16,
}

// The two one after the other.
fn joined(a: Size, b: Size) -> Size
    ensures { result ≡ joined_size a b }
{
    Size {
        end: b.end,
        nesting: a.nesting.max(b.nesting),
        parts: a.parts.saturating_add(b.parts).min(4097),
        width: a.width.saturating_add(b.width).min(257),
    }
}

// A size with whether it was read beside it, as one level of nesting hands it to the next: 16 bytes, where an `Option` of a size has 24, of which a level holds
// two on its stack. No other function has it.
#[derive(Clone, Copy)]
struct Span {
    end: usize,
    nesting: u16,
    parts: u16,
    width: u16,
    found: bool,
}

impl Span {
    fn new(x: Option<Size>) -> Span
        ensures { size_in result ≡ x }
    {
        let found = x.is_some();
        let r = x.unwrap_or(Size {
            end: 0,
            nesting: 0,
            parts: 0,
            width: 0,
        });
        Span {
            end: r.end,
            nesting: r.nesting,
            parts: r.parts,
            width: r.width,
            found,
        }
    }

    fn size(self) -> Option<Size>
        ensures { result ≡ size_in self }
    {
        if self.found {
            Some(Size {
                end: self.end,
                nesting: self.nesting,
                parts: self.parts,
                width: self.width,
            })
        } else {
            None
        }
    }
}

// A part that holds the processes of r, at its `)`.
fn closed(s: &[u8], r: Size) -> Option<Size>
    ensures { sized s.now result ≡ closed_size (sized s.now (Some r)) }
{
    let e = eat(s, r.end, b')')?;
    Some(Size {
        end: e,
        nesting: r.nesting.saturating_add(1).min(33),
        parts: r.parts.saturating_add(1).min(4097),
        width: 1,
    })
}

#[cycle(read_part_process_span)]
fn process_span(s: &[u8], at: usize) -> Span
    ensures { sized s.now (size_in result) ≡ mapped capped (process_counts (lex (drop at s.now))) }
{
    let mut here = at;
    let mut size = Size {
        end: at,
        nesting: 0,
        parts: 0,
        width: 0,
    };
    loop {
        let Some(part) = read_part(s, here) else {
            return Span::new(None);
        };
        size = joined(size, part);
        let Some(q) = eat(s, size.end, b'|') else {
            return Span::new(Some(size));
        };
        here = q;
    }
}

#[cycle(read_part_process_span)]
pub fn read_part(s: &[u8], at: usize) -> Option<Size>
    ensures { sized s.now result ≡ mapped capped (part_counts (lex (drop at s.now))) }
{
    let b = begin(s, at)?;
    if b.form == Form::Leaf {
        return Some(Size {
            end: b.end,
            nesting: 1,
            parts: 1,
            width: 1,
        });
    }
    let p = process_span(s, b.end).size()?;
    if b.form == Form::One {
        return closed(s, p);
    }
    let q = eat(s, p.end, b',')?;
    let r = process_span(s, q).size()?;
    closed(s, joined(p, r))
}

pub fn read_process(s: &[u8], at: usize) -> Option<Size>
    ensures { sized s.now result ≡ mapped capped (process_counts (lex (drop at s.now))) }
{
    process_span(s, at).size()
}
