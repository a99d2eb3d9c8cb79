// The clauses that lie in words, read one after another. How each of them lies is known to the module `clause` alone.
ghost use Rattle.std.specs.Prelude.{◌≡◌, ◌≤◌, Bool, length, take, drop, filter};
ghost use Rattle.std.specs.Iterator.{YieldsFirstBy, item_count};
ghost use Rattle.std.specs.List.{AllByRecursion};
ghost use Rattle.sheet.specs.Clauses.{Clause, Laid, Valid, clauses};
ghost use Rattle.sheet.specs.Views.{Tests, clause_seen};

use crate::clause::{Place, Tag, read};
use crate::words::slide;
use std::marker::Model;

// A clause in the words that hold it.
#[derive(Clone, Copy)]
pub struct ClauseRef<'a> {
    pub tag: Tag,
    pub lits: &'a [u16],
}

// The clauses that are left to be read. A contract sees the list of them.
#[derive(Drop)]
pub struct Clauses<'a> {
    words: &'a [u16],
}

impl<'a> Model for Clauses<'a> {
    ghost use Rattle.std.specs.Prelude.{List};
    ghost use Rattle.sheet.specs.Clauses.{Clause, Laid, clauses};

    ghost Value = { List Clause };

    ghost view = { λ a. clauses a.words.now };

    ghost invariant = { λ a. Laid a.words.now };
}

impl<'a> Clauses<'a> {
    #[tactic(auto, using(crate::proofs::Laying::valid_laid))]
    pub fn of(words: &'a [u16]) -> Clauses<'a>
        requires { Laid words.now }
        ensures clauses { result ≡ clauses words.now }
        ensures valid { AllByRecursion Valid result }
    {
        Clauses { words }
    }

    // The same once more.
    #[tactic(auto, using(crate::proofs::Laying::valid_laid))]
    pub fn iter(&self) -> Clauses<'a>
        ensures clauses { result ≡ self.now }
        ensures valid { AllByRecursion Valid result }
    {
        Clauses { words: self.words }
    }
}

impl<'a> Iterator for Clauses<'a> {
    type Item = ClauseRef<'a>;

    ghost next_gives = { YieldsFirstBy clause_seen (λ cs. cs) };

    ghost remaining = { item_count (λ cs. cs) };

    fn next(&mut self) -> Option<ClauseRef<'a>> {
        let words = self.words;
        if words.is_empty() {
            return None;
        }
        let Place { tag, from, to, end } = read(words, words.len(), 0);
        self.words = &words[end..];
        Some(ClauseRef {
            tag,
            lits: &words[from..to],
        })
    }
}

// Keeps the clauses of the first `fill` words that pass, in order, and answers where they end then. Whoever writes clauses takes the words
// and how many are in use: a struct that says that they are clauses could not be kept while they are written.
pub fn retain<F: Fn(Tag, &[u16]) -> bool>(sheet: &mut [u16], fill: usize, keep: F) -> usize
    requires fits { fill ≤ length sheet.old }
    requires laid { Laid (take fill sheet.old) }
    requires callable { F.IsAlwaysCallable keep }
    ensures shrinks { result ≤ fill }
    ensures laid { Laid (take result sheet.new) }
    ensures kept { (test : Clause → Bool) → Tests F.Fn keep test → clauses (take result sheet.new) ≡ filter test (clauses (take fill sheet.old)) }
    ensures behind { drop fill sheet.new ≡ drop fill sheet.old }
{
    let mut out = 0;
    let mut at = 0;
    // a cursor, since the words change under it
    while at < fill {
        let Place { tag, from, to, end } = read(sheet, fill, at);
        if keep(tag, &sheet[from..to]) {
            out = slide(sheet, out, at, end);
        }
        at = end;
    }
    out
}
