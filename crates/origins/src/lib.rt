// Document 02, R-4: the types of an explanation, each origin carrying its dB. Their definitions stand in specs/.
#![tactic(auto)]

ghost use Rattle.std.specs.Prelude.{◌≡◌};
ghost use Rattle.origins.specs.Origins.{effective_number, effective_db, rise_number, rise_db};

// The rule that yields the effective floor.
#[derive(Clone, Copy, Debug, PartialEq)]
pub enum EffectiveOrigin {
    OwnQuartile(f64),
    BlockPlus3(f64),
    Seed(f64),
}

// The rule that yields the rise floor.
#[derive(Clone, Copy, Debug, PartialEq)]
pub enum RiseOrigin {
    EffectiveFloor(f64),
    Block(f64),
    Seed(f64),
}

// Where the two floors of one channel come from.
#[derive(Clone, Copy, Debug, PartialEq)]
pub struct Explanation {
    pub effective: EffectiveOrigin,
    pub rise: RiseOrigin,
}

// An origin's number in document 02's order, which C is answered and which tells whether two are of one kind, and the dB that it carries.
// Two of each, and no trait over the two enums: its laws would name these four definitions again, and take more lines than the matches.
pub fn effective_number(origin: EffectiveOrigin) -> u8
    ensures { result ≡ effective_number origin }
{
    match origin {
        EffectiveOrigin::OwnQuartile(_) => 0,
        EffectiveOrigin::BlockPlus3(_) => 1,
        EffectiveOrigin::Seed(_) => 2,
    }
}

pub fn effective_db(origin: EffectiveOrigin) -> f64
    ensures { result ≡ effective_db origin }
{
    match origin {
        EffectiveOrigin::OwnQuartile(db)
        | EffectiveOrigin::BlockPlus3(db)
        | EffectiveOrigin::Seed(db) => db,
    }
}

pub fn rise_number(origin: RiseOrigin) -> u8
    ensures { result ≡ rise_number origin }
{
    match origin {
        RiseOrigin::EffectiveFloor(_) => 0,
        RiseOrigin::Block(_) => 1,
        RiseOrigin::Seed(_) => 2,
    }
}

pub fn rise_db(origin: RiseOrigin) -> f64
    ensures { result ≡ rise_db origin }
{
    match origin {
        RiseOrigin::EffectiveFloor(db) | RiseOrigin::Block(db) | RiseOrigin::Seed(db) => db,
    }
}
