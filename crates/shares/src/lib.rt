// The calculation of an hour's losses as definitions, in specs/, and its laws, each as the contract of a function.
#![tactic(auto)]

ghost use Rattle.shares.specs.Laws.{LawsHold, ReadingsAreRules};
ghost use Rattle.shares.specs.Worked.{TableHolds};

// Of every hour of a tree in service, under every loss rule: exactly one assignment obeys the carry rule; in each
// network shares and unborne add up to the burden; the nets balance, without sign excess unless a loss is negative;
// each borne loss is near to the exact one, which is command 15; and what happens beneath a dependent monitor
// changes nothing elsewhere.
pub fn laws_hold()
    ensures { LawsHold }
{}

// The flow reading and the sign reading are loss rules.
pub fn readings_are_rules()
    ensures { ReadingsAreRules }
{}

// The worked figures are those of the definitions.
pub fn table_holds()
    ensures { TableHolds }
{}
