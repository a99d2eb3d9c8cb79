// What several techniques do to the lent buffers: a literal is made true in all clauses, and an item is retired. And how many items they look at.
#![tactic(auto)]

ghost use Rattle.std.specs.Prelude.{◌≡◌, ◌+◌, ◌<◌, ◌≤◌, not, ◌++◌, length, take, drop};
ghost use Rattle.sheet.specs.ClauseSteps.{placed};
ghost use Rattle.sheet.specs.Clauses.{Laid, clause_words, clauses, ordinal_of};
ghost use Rattle.sheet.specs.Literals.{has};
ghost use Rattle.steps.specs.Places.{nameable as named};
ghost use Rattle.steps.specs.Propagation.{propagated};
ghost use Rattle.steps.specs.Rewriting.{but, lacking, retired};

use sheet::clause::{Place, enclose, read};
use sheet::literal::{SIGN, has_literal, opposite};
use sheet::row::{Item, Standing};
use sheet::words::slide;

// Moves the words other than `w` to the front, and answers how many they are.
fn keep_others(words: &mut [u16], w: u16) -> usize
    ensures few { result ≤ length words.old }
    ensures kept { take result words.new ≡ but w words.old }
{
    let mut count = 0;
    // an index, since the words are written under it, and a slice has no `retain`
    for i in 0..words.len() {
        if words[i] != w {
            words[count] = words[i];
            count += 1;
        }
    }
    count
}

// Moves the clause at `place` down to `out`, without the literal `w`, and answers where it ends then.
fn move_without(sheet: &mut [u16], out: usize, place: Place, w: u16) -> usize
    requires down { out < place.from }
    requires order { place.from ≤ place.to }
    requires end { place.end ≡ place.to + length (ordinal_of place.tag) }
    requires fits { place.end ≤ length sheet.old }
    requires count { place.to < place.from + 4096 }
    ensures shrinks { result ≤ place.end }
    ensures front { take result sheet.new ≡ take out sheet.old ++ clause_words (lacking w (placed sheet.old place)) }
    ensures behind { drop place.end sheet.new ≡ drop place.end sheet.old }
{
    let Place { tag, from, to, .. } = place;
    let count = keep_others(&mut sheet[from..to], w);
    slide(sheet, out + 1, from, from + count);
    enclose(sheet, out, tag, count)
}

// Whether a clause with these literals is still there once `w` is true.
fn stays(lits: &[u16], w: u16) -> bool
    ensures { result ≡ not (has w lits.now) }
{
    !has_literal(lits, w)
}

// Makes the literal true: clauses with it go, and its denial leaves the others. Answers the new fill.
pub fn make_true(sheet: &mut [u16], fill: usize, w: u16) -> usize
    requires fits { fill ≤ length sheet.old }
    requires laid { Laid (take fill sheet.old) }
    ensures shrinks { result ≤ fill }
    ensures laid { Laid (take result sheet.new) }
    ensures rewritten { clauses (take result sheet.new) ≡ propagated w (clauses (take fill sheet.old)) }
{
    let denial = opposite(w);
    let mut out = 0;
    let mut at = 0;
    // a cursor, since the words change under it
    while at < fill {
        let place = read(sheet, fill, at);
        if stays(&sheet[place.from..place.to], w) {
            out = move_without(sheet, out, place, denial);
        }
        at = place.end;
    }
    out
}

// Gives item `i` another standing. A label keeps its ordinal, by which it is known what it costs.
#[tactic(auto, using(crate::proofs::Rows::item_is))]
pub fn retire(row: &mut [Item], i: usize, standing: Standing)
    requires low { 1 ≤ i }
    requires high { i ≤ length row.old }
    ensures { row.new ≡ retired row.old i standing }
{
    row[i - 1].standing = standing;
}

// How many of the items a literal can name.
pub fn nameable(items: usize) -> u16
    ensures { result ≡ named items }
{
    items.min(usize::from(SIGN - 1)) as u16
}
