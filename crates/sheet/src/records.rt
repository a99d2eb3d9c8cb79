// The records of the reconstruction stack, read from the newest to the oldest. How each of them lies is known to the module `record` alone.
ghost use Rattle.std.specs.Prelude.{◌≡◌};
ghost use Rattle.std.specs.Iterator.{YieldsLastBy, item_count};
ghost use Rattle.std.specs.List.{AllByRecursion};
ghost use Rattle.sheet.specs.Records.{Stacked, ValidRecord, records};
ghost use Rattle.sheet.specs.Views.{record_seen};

use crate::record::{Filed, newest};
use std::marker::Model;

// A record in the words that hold it.
#[derive(Clone, Copy)]
pub struct RecordRef<'a> {
    pub code: u16,
    pub lits: &'a [u16],
    pub witness: u16,
}

// The records that are left to be read. A contract sees the list of them, the oldest first. A type beside `Clauses`, and no generic one for
// both: the value of a model cannot depend on what a parameter brings.
#[derive(Drop)]
pub struct Records<'a> {
    words: &'a [u16],
}

impl<'a> Model for Records<'a> {
    ghost use Rattle.std.specs.Prelude.{List};
    ghost use Rattle.sheet.specs.Records.{Record, Stacked, records};

    ghost Value = { List Record };

    ghost view = { λ a. records a.words.now };

    ghost invariant = { λ a. Stacked a.words.now };
}

impl<'a> Records<'a> {
    #[tactic(auto, using(crate::proofs::Stacking::stacked_valid))]
    pub fn of(words: &'a [u16]) -> Records<'a>
        requires { Stacked words.now }
        ensures records { result ≡ records words.now }
        ensures valid { AllByRecursion ValidRecord result }
    {
        Records { words }
    }

    // The same once more.
    #[tactic(auto, using(crate::proofs::Stacking::stacked_valid))]
    pub fn iter(&self) -> Records<'a>
        ensures records { result ≡ self.now }
        ensures valid { AllByRecursion ValidRecord result }
    {
        Records { words: self.words }
    }
}

impl<'a> Iterator for Records<'a> {
    type Item = RecordRef<'a>;

    ghost next_gives = { YieldsLastBy record_seen (λ rs. rs) };

    ghost remaining = { item_count (λ rs. rs) };

    fn next(&mut self) -> Option<RecordRef<'a>> {
        let words = self.words;
        if words.is_empty() {
            return None;
        }
        let Filed {
            code,
            from,
            to,
            witness,
        } = newest(words);
        self.words = &words[..from];
        Some(RecordRef {
            code,
            lits: &words[from..to],
            witness,
        })
    }
}
