// A segment's elements and components: tokens, and the position of a component.
#![tactic(auto)]

ghost use Rattle.std.specs.Prelude.{◌≡◌, drop};
ghost use Rattle.parts.specs.Forms.Lex.{token_at, elem_at, comp_at};
ghost use Rattle.std.specs.Iterator.{YieldsFirstBy, item_count};
ghost use Rattle.parts.specs.Tokens.{tokens, tok, tokens_left};
ghost use Rattle.parts.specs.Parts.{value_of, elements, value_at};

use segments::{Class, Text};

// `Stop` is a case and no Option, as the definition `token_at` says; the reader `Tokens` gives an Option of a `Part`.
#[derive(Clone, Copy, Debug, PartialEq, Eq)]
pub enum Token {
    Byte(u8, usize),
    Comp(usize),
    Elem(usize),
    Stop,
}

// What stands at `i`, and where the next token begins.
#[tactic(auto, using(crate::proofs::Laws::LexLaws::token_plain, crate::proofs::Laws::LexLaws::token_comp, crate::proofs::Laws::LexLaws::token_elem, crate::proofs::Laws::LexLaws::token_rel_lem, crate::proofs::Laws::LexLaws::token_cut, crate::proofs::Laws::LexLaws::token_term, crate::proofs::Laws::LexLaws::token_none))]
pub fn token_at(text: Text<'_>, i: usize) -> Token
    ensures { result ≡ token_at text.entry.service i (drop i text.entry.bytes.now) }
{
    if i < text.bytes.len() {
        let next = i + 1;
        let b = text.bytes[i];
        match segments::classify(text.service, b) {
            Class::Plain => Token::Byte(b, next),
            Class::Comp => Token::Comp(next),
            Class::Elem => Token::Elem(next),
            Class::Rel => {
                if next < text.bytes.len() {
                    Token::Byte(text.bytes[next], next + 1)
                } else {
                    Token::Stop
                }
            }
            Class::Term => Token::Stop,
        }
    } else {
        Token::Stop
    }
}

// A token without the place of the next one.
#[derive(Clone, Copy, Debug, PartialEq, Eq)]
pub enum Part {
    Byte(u8),
    Comp,
    Elem,
}

// The tokens of a segment from a place on.
#[derive(Clone, Copy)]
pub struct Tokens<'a> {
    pub text: Text<'a>,
    pub at: usize,
}

impl<'a> Iterator for Tokens<'a> {
    type Item = Part;

    ghost next_gives = { YieldsFirstBy tok tokens_left };

    ghost remaining = { item_count tokens_left };

    #[tactic(auto, using(crate::proofs::Laws::LexLaws::next_byte, crate::proofs::Laws::LexLaws::next_comp, crate::proofs::Laws::LexLaws::next_elem, crate::proofs::Laws::LexLaws::reads_stop))]
    fn next(&mut self) -> Option<Part> {
        match token_at(self.text, self.at) {
            Token::Byte(b, to) => {
                self.at = to;
                Some(Part::Byte(b))
            }
            Token::Comp(to) => {
                self.at = to;
                Some(Part::Comp)
            }
            Token::Elem(to) => {
                self.at = to;
                Some(Part::Elem)
            }
            Token::Stop => None,
        }
    }
}

// The position of element `e` of the segment that begins at `at`, or of the segment's end. A loop over `Tokens` would be no shorter: it counts elements and
// not tokens, and the place is the answer.
#[tactic(auto, using(crate::proofs::Laws::LexLaws::less_byte, crate::proofs::Laws::LexLaws::less_comp, crate::proofs::Laws::LexLaws::less_elem, crate::proofs::Laws::LexLaws::elem_here, crate::proofs::Laws::LexLaws::elem_byte, crate::proofs::Laws::LexLaws::elem_comp, crate::proofs::Laws::LexLaws::elem_elem, crate::proofs::Laws::LexLaws::elem_stop))]
fn element(text: Text<'_>, at: usize, e: usize) -> usize
    ensures { tokens text.entry result ≡ elem_at e (tokens text.entry at) }
{
    let mut i = at;
    let mut left = e;
    while 0 < left {
        match token_at(text, i) {
            Token::Byte(_, n) => i = n,
            Token::Comp(n) => i = n,
            Token::Elem(n) => {
                i = n;
                left -= 1;
            }
            Token::Stop => return i,
        }
    }
    i
}

// The position of component `c` of the element that begins at `at`, or a position where the value is empty: the
// place is the answer here too.
#[tactic(auto, using(crate::proofs::Laws::LexLaws::less_byte, crate::proofs::Laws::LexLaws::comp_byte, crate::proofs::Laws::LexLaws::less_comp, crate::proofs::Laws::LexLaws::comp_comp, crate::proofs::Laws::LexLaws::comp_elem, crate::proofs::Laws::LexLaws::comp_stop, crate::proofs::Laws::LexLaws::comp_here))]
fn component_of(text: Text<'_>, at: usize, c: usize) -> usize
    ensures { value_of (tokens text.entry result) ≡ value_of (comp_at c (tokens text.entry at)) }
{
    let mut i = at;
    let mut left = c;
    while 0 < left {
        match token_at(text, i) {
            Token::Byte(_, n) => i = n,
            Token::Comp(n) => {
                i = n;
                left -= 1;
            }
            Token::Elem(_) => {
                return i;
            }
            Token::Stop => return i,
        }
    }
    i
}

// The position of component `c` of element `e` of the segment that begins at `at`. The tag is component 0 of element 0.
#[tactic(auto, using(crate::proofs::Laws::ValueLaws::component_at))]
pub fn component(text: Text<'_>, at: usize, e: usize, c: usize) -> usize
    ensures { value_of (tokens text.entry result) ≡ value_at (elements (tokens text.entry at)) e c }
{
    component_of(text, element(text, at, e), c)
}
