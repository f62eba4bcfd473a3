// The options, each by its place in their list.
ghost use Rattle.std.specs.Prelude.{◌≡◌};
ghost use Rattle.rv_words.specs.Options.{option_name, takes_value};

pub(crate) const METHOD: u8 = 0;

pub(crate) const TO: u8 = 1;

pub(crate) const FROM: u8 = 2;

pub(crate) const LIBRARY: u8 = 3;

pub(crate) const AUX: u8 = 4;

pub(crate) const LINES: u8 = 5;

pub(crate) const SEED: u8 = 6;

pub(crate) const ALL: u8 = 7;

pub(crate) const SIMPLIFY: u8 = 8;

pub(crate) const WRAP: u8 = 9;

pub(crate) const GOAL: u8 = 10;

pub(crate) const EFFORT: u8 = 11;

pub(crate) const MARKS: u8 = 12;

pub(crate) const BLOCKS: u8 = 13;

pub(crate) const AS: u8 = 14;

pub(crate) const GATES: u8 = 15;

pub(crate) const BY: u8 = 16;

pub(crate) const NODES: u8 = 17;

pub(crate) const CURVE: u8 = 18;

pub(crate) const CONSTANTS: u8 = 19;

pub(crate) static PLACES: [u8; 20] = [
    METHOD, TO, FROM, LIBRARY, AUX, LINES, SEED, ALL, SIMPLIFY, WRAP, GOAL, EFFORT, MARKS, BLOCKS,
    AS, GATES, BY, NODES, CURVE, CONSTANTS,
];

/// What the option at a place is called.
pub fn option_name(place: u8) -> &'static str
    ensures { result.now ≡ option_name place }
{
    match place {
        METHOD => "method",
        TO => "to",
        FROM => "from",
        LIBRARY => "library",
        AUX => "aux",
        LINES => "lines",
        SEED => "seed",
        ALL => "all",
        SIMPLIFY => "simplify",
        WRAP => "wrap",
        GOAL => "goal",
        EFFORT => "effort",
        MARKS => "marks",
        BLOCKS => "blocks",
        AS => "as",
        GATES => "gates",
        BY => "by",
        NODES => "nodes",
        CURVE => "curve",
        _ => "constants",
    }
}

// Whether the option at a place takes a value, and is no flag.
pub(crate) fn takes_value(place: u8) -> bool
    ensures { result ≡ takes_value place }
{
    place != ALL && place != SIMPLIFY && place != MARKS && place != CURVE && place != CONSTANTS
}
