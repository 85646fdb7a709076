// A line of the input as a case.
use terms::{Channel, Place};

// An amount for a place.
#[derive(Clone, Copy)]
pub(crate) struct Change {
    pub place: Place,
    pub amount: u32,
}

// What stands in the header of a book: how many points and intervals, and where the blocks of C and G begin.
#[derive(Clone, Copy)]
pub(crate) struct Header {
    pub n: u32,
    pub t: u32,
    pub c: u32,
    pub g: u32,
}

// A working book of n points and t intervals with the same amount at every place, or the amount of the profiles
// that it lies on, and the hour that is integrated.
#[derive(Clone, Copy)]
pub(crate) struct Filled {
    pub n: u32,
    pub t: u32,
    pub amount: u32,
    pub hour: u16,
}

// What a working book lies on: nothing, a profile of point 1, or that on a profile of point 2.
#[derive(Clone, Copy)]
pub(crate) enum Backup {
    Nothing,
    Profile,
    Pile,
}

// What a line asks for.
#[derive(Clone, Copy)]
pub(crate) enum Case {
    Check {
        len: usize,
        header: Header,
    },
    Book(Filled, Backup),
    Profile {
        point: usize,
        amount: u32,
        hour: u16,
    },
    Net {
        c: u32,
        g: u32,
    },
    Mwh(i64),
}

// The number in a word; 0 where it is none.
fn number(word: Option<&str>) -> u32 {
    word.and_then(|digits| digits.parse().ok()).unwrap_or(0)
}

fn hour(word: Option<&str>) -> u16 {
    (number(word) % 65536) as u16
}

impl From<&str> for Change {
    fn from(piece: &str) -> Change {
        let mut words = piece.split(' ');
        let place = Place {
            point: number(words.next()) as usize,
            channel: match words.next() {
                Some("G") => Channel::G,
                _ => Channel::C,
            },
            interval: number(words.next()),
        };
        let amount = number(words.next());
        Change { place, amount }
    }
}

impl From<&str> for Filled {
    fn from(numbers: &str) -> Filled {
        let mut words = numbers.split(' ');
        Filled {
            n: number(words.next()),
            t: number(words.next()),
            amount: number(words.next()),
            hour: hour(words.next()),
        }
    }
}

impl From<&str> for Case {
    fn from(line: &str) -> Case {
        let head = line.split_once(';').map_or(line, |(head, _)| head).trim();
        let (kind, numbers) = head.split_once(' ').unwrap_or((head, ""));
        let mut words = numbers.split(' ');
        match kind {
            "check" => Case::Check {
                len: number(words.next()) as usize,
                header: Header {
                    n: number(words.next()),
                    t: number(words.next()),
                    c: number(words.next()),
                    g: number(words.next()),
                },
            },
            "profile" => Case::Profile {
                point: number(words.next()) as usize,
                amount: number(words.next()),
                hour: hour(words.next()),
            },
            "net" => Case::Net {
                c: number(words.next()),
                g: number(words.next()),
            },
            "mwh" => {
                let figure = line.strip_prefix(kind).unwrap_or("");
                Case::Mwh(figure.trim().parse().unwrap_or(0))
            }
            "book" => Case::Book(Filled::from(numbers), Backup::Nothing),
            "pile" => Case::Book(Filled::from(numbers), Backup::Profile),
            _ => Case::Book(Filled::from(numbers), Backup::Pile),
        }
    }
}
