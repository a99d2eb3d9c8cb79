// Why a call refuses. docs/REFUSALS.md has the table.
ghost use Rattle.std.specs.Prelude.{◌≡◌};
ghost use Rattle.sheet.specs.Refusals.{told};
ghost use Rattle.sheet.specs.declared.refusal.Refusal.TheVariants.{NotTogether};

// What does not hold together, in the order in which it is looked at.
#[derive(Clone, Copy, Debug, PartialEq, Eq)]
pub enum Part {
    Sheet = 1,
    Row = 2,
    Stack = 3,
    Weights = 4,
}

#[derive(Clone, Copy, Debug, PartialEq, Eq)]
pub enum Refusal {
    TooManyItems(u64),
    RowTooShort(usize),
    BadLiteral(usize),
    TooManySofts(usize),
    TotalTooLarge(usize),
    WordsDoNotFit(usize),
    NoRowForLabels(usize),
    NotTogether(Part),
    AnswerLength(usize),
    NeitherYesNorNo(usize),
    ClauseUnmet(usize),
    UnknownLetter(usize),
}

impl From<Part> for Refusal {
    ghost from_gives = { λ part e. e ≡ NotTogether part };

    fn from(part: Part) -> Refusal {
        Refusal::NotTogether(part)
    }
}

impl Refusal {
    // The refusal's number in the table, by hand: variants with values have no numbers of their own.
    pub fn number(&self) -> u8
        ensures { result ≡ (told self.now).0 }
    {
        match self {
            Refusal::TooManyItems(_) => 1,
            Refusal::RowTooShort(_) => 2,
            Refusal::BadLiteral(_) => 3,
            Refusal::TooManySofts(_) => 4,
            Refusal::TotalTooLarge(_) => 5,
            Refusal::WordsDoNotFit(_) => 6,
            Refusal::NoRowForLabels(_) => 7,
            Refusal::NotTogether(_) => 8,
            Refusal::AnswerLength(_) => 9,
            Refusal::NeitherYesNorNo(_) => 10,
            Refusal::ClauseUnmet(_) => 11,
            Refusal::UnknownLetter(_) => 12,
        }
    }

    // What the refusal tells besides its number: a count, a place from 0, or the number of the part that fails.
    pub fn value(&self) -> u64
        ensures { result ≡ (told self.now).1 }
    {
        match *self {
            Refusal::TooManyItems(asked) => asked,
            Refusal::NotTogether(part) => part as u64,
            Refusal::RowTooShort(n)
            | Refusal::BadLiteral(n)
            | Refusal::TooManySofts(n)
            | Refusal::TotalTooLarge(n)
            | Refusal::WordsDoNotFit(n)
            | Refusal::NoRowForLabels(n)
            | Refusal::AnswerLength(n)
            | Refusal::NeitherYesNorNo(n)
            | Refusal::ClauseUnmet(n)
            | Refusal::UnknownLetter(n) => n as u64,
        }
    }
}
