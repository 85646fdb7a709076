// What a point is: its class and the number of its parent.
ghost use Rattle.std.specs.Prelude.{◌≡◌, [], ◌∷◌, Some};
ghost use Rattle.std.specs.Result.{result_ok};
ghost use Rattle.points.specs.Classes.{class_by, hosts, is_billing, is_embedded, is_member, is_monitor, is_root, letter_of};
ghost use Rattle.points.specs.Points.{member_of};

use std::fmt;

// The class of a point. A root is where the connection is metered; the roots monitor the main
// network. A member takes part in a network, and a monitor is a member that monitors a network of
// its own. An embedded point is metered within a member or within another embedded point.
#[derive(Clone, Copy, Debug, PartialEq, Eq)]
pub enum Class {
    Root,
    Member,
    Monitor,
    Embedded,
}

// One point of a tree. Its parent is the number of an earlier point, or 0. A root names 0, a member
// or a monitor names the monitor of the network that it joins, 0 for the main network, and an
// embedded point names the point that it is embedded in.
#[derive(Clone, Copy, Debug, PartialEq, Eq)]
pub struct Point {
    pub class: Class,
    pub parent: usize,
}

// No class has this letter.
#[derive(Clone, Copy, Debug, PartialEq, Eq)]
pub struct NoClass;

// The class that a letter stands for.
impl TryFrom<char> for Class {
    type Error = NoClass;

    ghost try_from_gives = { λ letter r. result_ok r ≡ class_by letter };

    fn try_from(letter: char) -> Result<Class, NoClass> {
        match letter {
            'R' => Ok(Class::Root),
            'P' => Ok(Class::Member),
            'M' => Ok(Class::Monitor),
            'E' => Ok(Class::Embedded),
            _ => Err(NoClass),
        }
    }
}

impl Class {
    pub fn is_root(self) -> bool
        ensures { result ≡ is_root self }
    {
        matches!(self, Class::Root)
    }

    // Whether points of this class are members of a network.
    pub fn is_member(self) -> bool
        ensures { result ≡ is_member self }
    {
        matches!(self, Class::Member | Class::Monitor)
    }

    // Whether points of this class monitor a network of their own.
    pub fn is_monitor(self) -> bool
        ensures { result ≡ is_monitor self }
    {
        matches!(self, Class::Monitor)
    }

    pub fn is_embedded(self) -> bool
        ensures { result ≡ is_embedded self }
    {
        matches!(self, Class::Embedded)
    }

    // Whether points of this class are billed.
    pub fn is_billing(self) -> bool
        ensures { result ≡ is_billing self }
    {
        matches!(self, Class::Embedded | Class::Member)
    }

    // Whether an embedded point may name a point of this class.
    pub fn hosts(self) -> bool
        ensures { result ≡ hosts self }
    {
        matches!(self, Class::Member | Class::Embedded)
    }
}

impl Point {
    // Whether the point is a member of the network, which is 0 for the main one, else its monitor.
    pub fn is_member_of(self, network: usize) -> bool
        ensures { result ≡ member_of network self }
    {
        self.class.is_member() && self.parent == network
    }
}

// The letter of a class.
impl fmt::Display for Class {
    ghost output = { λ c. Some (letter_of c ∷ []) };

    fn fmt<W: fmt::Write>(&self, f: &mut fmt::Formatter<W>) -> fmt::Result {
        f.write_str(match self {
            Class::Root => "R",
            Class::Member => "P",
            Class::Monitor => "M",
            Class::Embedded => "E",
        })
    }
}
