// The lines of a tree text.
ghost use Rattle.std.specs.Prelude.{◌≡◌, ◌≢◌, ◌≤◌, ◌∷◌, ℕ, List, length, MatchOption};
ghost use Rattle.std.specs.Str.Parse.{AllDigits, digits_value};
ghost use Rattle.treetext.specs.Shapes.{digits_ahead, NoParent, Opens, OpensParent, plain};
ghost use Rattle.treetext.specs.Text.{Shapeless};

// The most digits that a parent may have.
const DIGIT_LIMIT: usize = 3;

// A line that was read, and the text behind it.
#[derive(Clone, Copy)]
pub(crate) struct Line<'a> {
    pub letter: u8,
    pub parent: usize,
    pub rest: &'a [u8],
}

// How many digits the text begins with.
fn digits_ahead(text: &[u8]) -> usize
    ensures value { result ≡ digits_ahead text.now }
    ensures bound { result ≤ length text.now }
{
    text.iter().take_while(|b| b.is_ascii_digit()).count()
}

// Whether digits are a parent: one to three of them, and no zero before others.
fn is_parent(digits: &[u8]) -> bool
    ensures { result ≡ plain digits.now }
{
    !digits.is_empty() && digits.len() <= DIGIT_LIMIT && !matches!(digits, [b'0', _, ..])
}

// The number that one to three digits write. `str::parse` would take a text that has to be made of the
// digits first, and both steps have errors that cannot come here.
fn number(digits: &[u8]) -> usize
    requires digits { AllDigits 10 digits.now }
    requires few { length digits.now ≤ 3 }
    ensures { result ≡ digits_value 10 digits.now }
{
    let mut n = 0;
    for b in digits {
        n = n * 10 + usize::from(*b - b'0');
    }
    n
}

// The text behind the line feed that it begins with.
fn behind_feed(text: &[u8]) -> Option<&[u8]>
    ensures { MatchOption result ((rest : List ℕ) → text.now ≢ 10 ∷ rest) (λ rest. text.now ≡ 10 ∷ rest.now) }
{
    match text {
        [b'\n', rest @ ..] => Some(rest),
        _ => None,
    }
}

// The parent that the text begins with, and the text behind its line feed.
fn read_parent(text: &[u8]) -> Option<(usize, &[u8])>
    ensures { MatchOption result (NoParent text.now) (λ x. OpensParent text.now x.0 x.1.now) }
{
    let (digits, behind) = text.split_at(digits_ahead(text));
    match behind_feed(behind) {
        Some(rest) if is_parent(digits) => Some((number(digits), rest)),
        _ => None,
    }
}

// The line that the text begins with: one byte for the class, a space, and the parent.
pub(crate) fn read_line(text: &[u8]) -> Option<Line<'_>>
    ensures { MatchOption result (Shapeless text.now) (λ l. Opens text.now l.letter l.parent l.rest.now) }
{
    let [letter, b' ', behind @ ..] = text else {
        return None;
    };
    let (parent, rest) = read_parent(behind)?;
    Some(Line {
        letter: *letter,
        parent,
        rest,
    })
}
