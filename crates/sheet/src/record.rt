// How a record of the reconstruction stack lies in words: its literals, the witness, and a trailer that tells how far back it goes. No other module knows.
ghost use Rattle.std.specs.Prelude.{◌≡◌, ◌+◌, ◌*◌, ◌<◌, ◌≤◌, ◌++◌, length, take, Decides, MatchOption};
ghost use Rattle.sheet.specs.Records.{Stacked, ValidRecord, record_words};
ghost use Rattle.sheet.specs.RecordSteps.{Ends, Newest, filed};

use crate::clause::is_normal;
use crate::literal::has_literal;

// A trailer is its code times this, and its count, which is below it.
const COUNT_LIMIT: u16 = 4096;

// Where a record lies: its literals are the words from `from` up to `to`, the witness stands at `to`, and the trailer behind it.
#[derive(Clone, Copy)]
pub struct Filed {
    // any number from 1 to 15: an enum of the techniques that record would be narrower than the layout
    pub code: u16,
    pub from: usize,
    pub to: usize,
    pub witness: u16,
}

// The record that the words end with, if they have room for it; whether it is valid is not looked at.
fn last_record(words: &[u16]) -> Option<Filed>
    requires { 0 < length words.now }
    ensures { MatchOption result (Stacked words.now → ⊥) (Ends words.now) }
{
    let to = words.len().checked_sub(2)?;
    let trailer = words[to + 1];
    let from = to.checked_sub((trailer % COUNT_LIMIT) as usize)?;
    Some(Filed {
        code: trailer / COUNT_LIMIT,
        from,
        to,
        witness: words[to],
    })
}

// The newest of the records that the words hold.
pub fn newest(words: &[u16]) -> Filed
    requires some { 0 < length words.now }
    requires laid { Stacked words.now }
    ensures { Newest words.now result }
{
    last_record(words).unwrap()
}

// Whether the record that lies at `last` follows the layout.
fn is_valid(stack: &[u16], last: Filed) -> bool
    requires order { last.from ≤ last.to }
    requires fits { last.to ≤ length stack.now }
    requires code { last.code < 16 }
    requires count { last.to < last.from + 4096 }
    ensures { Decides result (ValidRecord (filed stack.now last)) }
{
    let Filed {
        code,
        from,
        to,
        witness,
    } = last;
    let lits = &stack[from..to];
    code > 0 && from < to && is_normal(lits) && has_literal(lits, witness)
}

// Whether the words are exactly those of records that follow the layout.
pub fn is_stacked(words: &[u16]) -> bool
    ensures { Decides result (Stacked words.now) }
{
    let mut rest = words;
    while !rest.is_empty() {
        let Some(last) = last_record(rest) else {
            return false;
        };
        if !is_valid(rest, last) {
            return false;
        }
        rest = &rest[..last.from];
    }
    true
}

// The word behind a record's witness.
fn trailer(code: u16, count: usize) -> u16
    requires code { code < 16 }
    requires count { count < 4096 }
    ensures { result ≡ code * 4096 + count }
{
    code * COUNT_LIMIT + count as u16
}

// Writes a record behind the first `fill` words, and returns where it ends.
pub fn push(stack: &mut [u16], fill: usize, code: u16, lits: &[u16], witness: u16) -> usize
    requires room { fill + length lits.now + 2 ≤ length stack.old }
    requires count { length lits.now < 4096 }
    requires code { code < 16 }
    ensures end { result ≡ fill + length lits.now + 2 }
    ensures words { take result stack.new ≡ take fill stack.old ++ record_words (record { code = code; lits = lits.now; witness = witness }) }
{
    let to = fill + lits.len();
    stack[fill..to].copy_from_slice(lits);
    stack[to] = witness;
    stack[to + 1] = trailer(code, lits.len());
    to + 2
}
