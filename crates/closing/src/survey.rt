// Group detection. One pass over the gathered clauses tells what they say of each item, and that decides which softs
// lend their item as their label.
ghost use Rattle.std.specs.Prelude.{ℕ, ◌<◌, ◌≤◌, slice_index};

use sheet::clause::Tag;
use sheet::clauses::{ClauseRef, Clauses};
use sheet::literal::{is_denied, item};

// A place for each item: there are at most 2,000, numbered from 1.
const PLACES: usize = 2001;

// What the clauses of a gathered sheet say of each item.
#[derive(Drop)]
pub struct Survey {
    // how many softs name it, in either sign; the count stops at 2
    naming: [u8; PLACES],
    // whether a hard clause denies it
    denials: [bool; PLACES],
    ghost capped: { (i : ℕ) → i < 2001 → slice_index naming i ≤ 2 },
}

// Whoever reads literals asks that they name items up to 2,000: a type for such lists would be made for one call and opened in it.
impl Survey {
    ghost use Rattle.std.specs.Prelude.{◌≡◌, ◌+◌, List, [], ◌∷◌, length};
    ghost use Rattle.closing.specs.Labelling.{Needed, Ranged, wants_fresh};
    ghost use Rattle.closing.specs.Surveys.{Counted, Noted, Surveys, namings};
    ghost use Rattle.meaning.specs.Calls.{in_hard, lends_item, softs_naming};
    ghost use Rattle.sheet.specs.Clauses.{Clause};
    ghost use Rattle.sheet.specs.Literals.{Literal, Normal, has};
    ghost use Rattle.sheet.specs.Views.{clause_seen};
    ghost use Rattle.std.specs.List.{AllByRecursion};

    // Counts a soft at each item that it names.
    fn note_soft(&mut self, lits: &[u16])
        requires { AllByRecursion (Literal 2000) lits.now }
        ensures naming { Counted self.old.naming self.new.naming (λ i. namings i lits.now) }
        ensures denials { self.new.denials ≡ self.old.denials }
    {
        for w in lits {
            let count = &mut self.naming[item(*w)];
            *count = (*count + 1).min(2);
        }
    }

    // Notes each item that a hard clause denies.
    fn note_hard(&mut self, lits: &[u16])
        requires { AllByRecursion (Literal 2000) lits.now }
        ensures naming { self.new.naming ≡ self.old.naming }
        ensures denials { Noted self.old.denials self.new.denials (λ i. has (i + 32768) lits.now) }
    {
        for w in lits {
            self.denials[item(*w)] |= is_denied(*w);
        }
    }

    #[tactic(auto, using(crate::proofs::Namings::namings_normal))]
    fn note(&mut self, clause: ClauseRef<'_>)
        requires literals { AllByRecursion (Literal 2000) clause.lits.now }
        requires normal { Normal clause.lits.now }
        ensures naming { Counted self.old.naming self.new.naming (λ i. softs_naming i (clause_seen clause.entry ∷ [])) }
        ensures denials { Noted self.old.denials self.new.denials (λ i. in_hard (i + 32768) (clause_seen clause.entry ∷ [])) }
    {
        match clause.tag {
            Tag::Hard => self.note_hard(clause.lits),
            Tag::Soft(_) => self.note_soft(clause.lits),
            Tag::Working => {}
        }
    }

    // What the clauses of a gathered sheet say of the items.
    pub fn of(clauses: &Clauses<'_>) -> Self
        requires ranged { Ranged 2000 clauses.now }
        ensures { Surveys clauses.now result }
    {
        let mut survey = Survey {
            naming: [0; PLACES],
            denials: [false; PLACES],
        };
        for clause in clauses.iter() {
            survey.note(clause);
        }
        survey
    }

    // Whether a soft lends its item as its label: it is the unit "not n", no other soft names n, and no hard clause has "not n".
    pub fn lends(&self, lits: &[u16]) -> bool
        requires { AllByRecursion (Literal 2000) lits.now }
        ensures { (all : List Clause) → Surveys all self.now → result ≡ lends_item all lits.now }
    {
        match lits {
            [only] => is_denied(*only)
                && self.naming[item(*only)] == 1
                && !self.denials[item(*only)],
            _ => false,
        }
    }

    // Whether a clause is a soft that does not lend its item, and so wants a fresh one as its label.
    fn wants_fresh(&self, clause: &ClauseRef<'_>) -> bool
        requires { AllByRecursion (Literal 2000) clause.now.lits.now }
        ensures { (all : List Clause) → Surveys all self.now → result ≡ wants_fresh all (clause_seen clause.now) }
    {
        matches!(clause.tag, Tag::Soft(_)) && !self.lends(clause.lits)
    }

    // How long a row of `items` gets with the labels of the clauses.
    pub fn items_needed(&self, clauses: &Clauses<'_>, items: usize) -> usize
        requires bound { length clauses.now ≤ 32768 }
        requires few { items ≤ 2000 }
        requires ranged { Ranged 2000 clauses.now }
        requires surveyed { Surveys clauses.now self.now }
        ensures { Needed clauses.now items result }
    {
        let fresh = clauses
            .iter()
            .filter(|clause| self.wants_fresh(clause))
            .count();
        items + fresh
    }
}
