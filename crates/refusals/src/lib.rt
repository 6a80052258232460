// Why a sheet, a text, a unit list, the flags or what was lent is refused: one variant for each number of the table in docs/RULES.md.
#![tactic(auto)]

ghost use Rattle.std.specs.Prelude.{◌≡◌};
ghost use Rattle.refusals.specs.Told.{number_of};

#[derive(Clone, Copy)]
pub enum Reason {
    // 1: the sheet is too long, or too little work memory is lent.
    Lengths,
    // 2 and 3
    LongText,
    LongUnits,
    // 4
    TextNotUtf8,
    // 5: a line of the unit list is ill-formed, or there are too many.
    IllUnits,
    // 6
    UnitTwice,
    // 7
    UnknownFlags,
    // 8
    IllLine,
    // 9
    ManyLines,
    // 10: a span is reversed, past the text, or inside a character.
    BadSpan,
    // 11: `start`, `section` or `meta` in an open block.
    InOpenBlock,
    // 12: `end`, `text` or a component in none.
    InNoBlock,
    // 13: `end` of the other kind.
    OtherEnd,
    // 14: a component in a text block outside text mode.
    ComponentInText,
    // 15: an intermediate reference that the modifiers do not mark.
    NotMarked,
    // 16: a negative one.
    Negative,
    // 17
    OverLimits,
    // 18: what is referred to is itself a reference.
    ReferenceToReference,
    // 19: a block is open at the end.
    OpenAtEnd,
    // 20
    NoRoom,
    // 21: an `error` line, which has no plain form.
    ErrorLine,
    // 22: a component in a step of components mode.
    InComponentsMode,
    // 23: an implicit reference that is not to the last of its name.
    NotLast,
    // 24
    LongForm,
}

impl Reason {
    // The number that the pages, the programs and C tell.
    pub fn number(self) -> u32
        ensures { result ≡ number_of self }
    {
        match self {
            Reason::Lengths => 1,
            Reason::LongText => 2,
            Reason::LongUnits => 3,
            Reason::TextNotUtf8 => 4,
            Reason::IllUnits => 5,
            Reason::UnitTwice => 6,
            Reason::UnknownFlags => 7,
            Reason::IllLine => 8,
            Reason::ManyLines => 9,
            Reason::BadSpan => 10,
            Reason::InOpenBlock => 11,
            Reason::InNoBlock => 12,
            Reason::OtherEnd => 13,
            Reason::ComponentInText => 14,
            Reason::NotMarked => 15,
            Reason::Negative => 16,
            Reason::OverLimits => 17,
            Reason::ReferenceToReference => 18,
            Reason::OpenAtEnd => 19,
            Reason::NoRoom => 20,
            Reason::ErrorLine => 21,
            Reason::InComponentsMode => 22,
            Reason::NotLast => 23,
            Reason::LongForm => 24,
        }
    }
}

// A reason, and the number of the line that it comes from, from 1; 0 where it comes from none.
#[derive(Clone, Copy)]
pub struct Refusal {
    pub reason: Reason,
    pub line: u32,
}
