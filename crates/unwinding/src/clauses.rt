// Whether an answer meets clauses.
ghost use Rattle.std.specs.Prelude.{◌≡◌};
ghost use Rattle.meaning.specs.Answers.{is_true, met};
ghost use Rattle.sheet.specs.Clauses.{Laid, clauses};
ghost use Rattle.unwinding.specs.Bytes.{first_unmet, values_of};

use crate::bytes::is_yes;
use sheet::clauses::Clauses;
use sheet::literal::{is_denied, item};

fn is_true(w: u16, answer: &[u8]) -> bool
    ensures { result ≡ is_true (values_of answer.now) w }
{
    is_yes(answer, item(w)) != is_denied(w)
}

// Whether one of the literals is true.
pub fn is_met(lits: &[u16], answer: &[u8]) -> bool
    ensures { result ≡ met (values_of answer.now) lits.now }
{
    lits.iter().any(|w| is_true(*w, answer))
}

// The number, from 0, of the first clause that the answer does not meet.
// It is lent the words, since a `Clauses` does not say that the number of what it holds fits a `usize`.
#[tactic(auto, using(crate::proofs::Meeting::first_unmet_from))]
pub fn first_unmet(sheet: &[u16], answer: &[u8]) -> Option<usize>
    requires { Laid sheet.now }
    ensures { result ≡ first_unmet (values_of answer.now) (clauses sheet.now) }
{
    for (number, clause) in Clauses::of(sheet).enumerate() {
        if !is_met(clause.lits, answer) {
            return Some(number);
        }
    }
    None
}
