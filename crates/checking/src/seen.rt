// The ordinals that were seen, as a table with a place for each `u16`.
ghost use Rattle.std.specs.Prelude.{◌≡◌, ℕ, List, [], ◌∷◌, ◌++◌};
ghost use Rattle.sheet.specs.Literals.{has};
ghost use Rattle.checking.specs.Noted.{Noted};

const ORDINALS: usize = 65536;

#[derive(Drop)]
pub(crate) struct Seen {
    table: [bool; ORDINALS],
}

impl Seen {
    // No ordinal was seen.
    pub(crate) fn none() -> Self
        ensures { Noted result [] }
    {
        Seen {
            table: [false; ORDINALS],
        }
    }

    // Notes an ordinal, and says whether it was noted before.
    #[tactic(auto, using(crate::proofs::Noting::noted_more))]
    pub(crate) fn note(&mut self, n: u16) -> bool
        ensures before { (ns : List ℕ) → Noted self.old ns → result ≡ has n ns }
        ensures after { (ns : List ℕ) → Noted self.old ns → Noted self.new (ns ++ n ∷ []) }
    {
        std::mem::replace(&mut self.table[usize::from(n)], true)
    }
}
