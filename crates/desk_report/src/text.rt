// Decimal digits and fixed words, as ASCII bytes. Not by `impl Display` and `write!`: their contracts say what is written where they end
// well, and not that they do, and here no line and no page can fail.
ghost use Rattle.std.specs.Prelude.{◌≡◌, ◌++◌, ◌+◌, ◌≤◌, ℕ, List, [], ◌∷◌, eqb, length};
ghost use Rattle.std.proofs.lemmas.List.Edits.{sets};
ghost use Rattle.abstract_page.specs.Text.{newline, decimal, word, right};
ghost use Rattle.desk_report.specs.Page.{end_of};

use crate::buffer::{Bytes, store};
use interface_display::State;
use std::marker::Model;

// Text at the right of 20 columns, written from its last byte on; blanks are before it. Of a text that is longer its end stands there.
// Memory is fixed, and no type of the library fills one from its end.
#[derive(Drop)]
pub(crate) struct Columns {
    bytes: [u8; 20],
    from: usize,
}

impl Model for Columns {
    ghost use Rattle.std.specs.Prelude.{◌≡◌, ◌≤◌, List, ℕ, drop};
    ghost use Rattle.abstract_page.specs.Text.{right};

    ghost Value = { List ℕ };

    ghost view = { λ c. drop c.from c.bytes };

    ghost invariant = { λ c. (c.from ≤ 20) × (c.bytes ≡ right 20 (drop c.from c.bytes)) };
}

impl Columns {
    // No text.
    pub(crate) fn new() -> Columns
        ensures { result ≡ [] }
    {
        Columns {
            bytes: [b' '; 20],
            from: 20,
        }
    }

    // A text that has room.
    pub(crate) fn of(text: &[u8]) -> Columns
        requires { length text.now ≤ 20 }
        ensures { result ≡ text.now }
    {
        let mut bytes = [b' '; 20];
        let from = 20 - text.len();
        bytes[from..].copy_from_slice(text);
        Columns { bytes, from }
    }

    pub(crate) fn is_empty(&self) -> bool
        ensures { result ≡ eqb (length self.now) 0 }
    {
        self.from == 20
    }

    // One byte before the text.
    pub(crate) fn push(&mut self, b: u8)
        ensures { self.new ≡ end_of (b ∷ self.old) }
    {
        if 0 < self.from {
            self.from -= 1;
            self.bytes[self.from] = b;
        }
    }

    // The decimal digits of a number before the text: at most twenty, the last is stored first.
    pub(crate) fn push_decimal(&mut self, n: u64)
        ensures { self.new ≡ end_of (decimal n ++ self.old) }
    {
        let mut rest = n;
        for _ in 0..20usize {
            self.push(b'0' + (rest % 10) as u8);
            rest /= 10;
            if rest == 0 {
                return;
            }
        }
    }

    // The text.
    pub(crate) fn text(&self) -> &[u8]
        ensures value { result.now ≡ self.now }
        ensures fits { length result.now ≤ 20 }
    {
        &self.bytes[self.from..]
    }

    // Stores the line of a name and this at its place: each in its 20 columns, and a newline. A place and no part, as `store`.
    pub(crate) fn line(&self, name: &[u8; 20], buffer: &mut [u8], at: usize)
        requires { at + 41 ≤ length buffer.old }
        ensures { buffer.new ≡ sets buffer.old at (name.now ++ (right 20 self.now ++ (newline ∷ []))) }
    {
        store(buffer, at, name);
        store(buffer, at + 20, &self.bytes);
        buffer[at + 40] = b'\n';
    }
}

// The decimal digits of a number.
pub fn decimal(n: u64) -> Bytes<20>
    ensures { result ≡ decimal n }
{
    let mut columns = Columns::new();
    columns.push_decimal(n);
    let mut digits = Bytes::new();
    digits.push(columns.text());
    digits
}

// The word of a state, a fixed byte string: what is written is no more than these bytes.
pub(crate) fn word(state: State) -> &'static [u8]
    ensures { result.now ≡ word state }
{
    match state {
        State::Lost => b"lost",
        State::Level => b"level",
        State::Waiting => b"waiting",
    }
}
