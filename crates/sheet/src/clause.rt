// How a clause lies in words. No other module knows.
ghost use Rattle.std.specs.Prelude.{◌≡◌, ◌+◌, ◌*◌, ◌%◌, ◌<◌, ◌≤◌, ◌++◌, length, take, drop, Decides, slice_set};
ghost use Rattle.std.specs.List.{between};
ghost use Rattle.sheet.specs.ClauseSteps.{OneSign, Parted, Step, with_ordinal};
ghost use Rattle.sheet.specs.Clauses.{Laid, behind, clause_words, kind_of, ordinal_of, tag_of};
ghost use Rattle.sheet.specs.Literals.{Normal, Rising};

use crate::literal::SIGN;
use std::cmp::Ordering;

// A header is its kind times this, and its count, which is below it.
pub const COUNT_LIMIT: u16 = 4096;

#[derive(Clone, Copy)]
pub enum Tag {
    Hard,
    // with its ordinal among the softs kept
    Soft(u16),
    Working,
}

// The layout numbers the kinds, and only this module knows the numbers: an enum of kinds would be a second one beside `Tag`.
impl Tag {
    // What stands for the tag in a header.
    fn kind(self) -> u16
        ensures { result ≡ kind_of self }
    {
        match self {
            Tag::Hard => 1,
            Tag::Soft(_) => 2,
            Tag::Working => 3,
        }
    }

    // The tag that a kind stands for. Only a soft has the ordinal.
    fn of(kind: u16, ordinal: u16) -> Self
        ensures { result ≡ tag_of kind ordinal }
    {
        match kind {
            1 => Tag::Hard,
            2 => Tag::Soft(ordinal),
            _ => Tag::Working,
        }
    }
}

// Where a clause lies: its literals are the words from `from` up to `to`, and the next clause begins at `end`.
#[derive(Clone, Copy)]
pub struct Place {
    pub tag: Tag,
    pub from: usize,
    pub to: usize,
    pub end: usize,
}

// Whether the kind stands for a tag.
fn is_kind(kind: u16) -> bool
    ensures { Decides result ((1 ≤ kind) × (kind ≤ 3)) }
{
    matches!(kind, 1..=3)
}

// How many literals a header counts.
fn count(header: u16) -> usize
    ensures { result ≡ header % 4096 }
{
    usize::from(header % COUNT_LIMIT)
}

// How many words stand behind a header: the literals that it counts, and a soft's ordinal.
fn words_behind(header: u16) -> usize
    ensures { result ≡ behind header }
{
    let has_ordinal = header / COUNT_LIMIT == 2;
    count(header) + usize::from(has_ordinal)
}

// The clause whose header stands at `at`.
pub fn read(sheet: &[u16], fill: usize, at: usize) -> Place
    requires fits { fill ≤ length sheet.now }
    requires inside { at < fill }
    requires laid { Laid (between at fill sheet.now) }
    ensures { Step sheet.now at fill result }
{
    let header = sheet[at];
    let behind = words_behind(header);
    let from = at + 1;
    Place {
        // the last word is a soft's ordinal
        tag: Tag::of(header / COUNT_LIMIT, sheet[at + behind]),
        from,
        to: from + count(header),
        end: from + behind,
    }
}

fn is_rising(lits: &[u16]) -> bool
    ensures { Decides result (Rising lits.now) }
{
    lits.is_sorted_by(|v, w| v < w)
}

// Where the denied literals begin: their sign puts them behind the plain ones.
fn first_denied(lits: &[u16]) -> usize
    requires { Rising lits.now }
    ensures { Parted lits.now result }
{
    lits.partition_point(|w| *w < SIGN)
}

// Whether no item stands on both sides of `split`. Both sides ascend by item, so one pass over each finds it.
fn has_one_sign(lits: &[u16], split: usize) -> bool
    requires rising { Rising lits.now }
    requires parted { Parted lits.now split }
    ensures { Decides result (OneSign lits.now) }
{
    // two cursors: each side moves on alone, and a pair of shrinking slices says no more
    let mut plain = 0;
    let mut denied = split;
    while plain < split && denied < lits.len() {
        match lits[plain].cmp(&(lits[denied] - SIGN)) {
            Ordering::Less => plain += 1,
            Ordering::Greater => denied += 1,
            Ordering::Equal => return false,
        }
    }
    true
}

// Whether literals are ascending and never both signs of an item.
pub fn is_normal(lits: &[u16]) -> bool
    ensures { Decides result (Normal lits.now) }
{
    is_rising(lits) && has_one_sign(lits, first_denied(lits))
}

// Whether the words are exactly those of clauses that follow the layout.
pub fn is_laid(words: &[u16]) -> bool
    ensures { Decides result (Laid words.now) }
{
    let mut rest = words;
    while let Some((header, behind)) = rest.split_first() {
        let Some((body, next)) = behind.split_at_checked(words_behind(*header)) else {
            return false;
        };
        if !is_kind(header / COUNT_LIMIT) || !is_normal(&body[..count(*header)]) {
            return false;
        }
        rest = next;
    }
    true
}

// Writes a clause's header at `at`.
pub fn write_header(sheet: &mut [u16], at: usize, tag: Tag, count: usize)
    requires inside { at < length sheet.old }
    requires count { count < 4096 }
    ensures { sheet.new ≡ slice_set sheet.old at (kind_of tag * 4096 + count) }
{
    sheet[at] = tag.kind() * COUNT_LIMIT + count as u16;
}

// How many words a clause takes.
pub fn size(tag: Tag, count: usize) -> usize
    requires { count < 4096 }
    ensures { result ≡ 1 + count + length (ordinal_of tag) }
{
    match tag {
        Tag::Soft(_) => 2 + count,
        Tag::Hard | Tag::Working => 1 + count,
    }
}

// Writes the ordinal that a soft has behind its literals, and returns where the clause ends.
fn write_ordinal(sheet: &mut [u16], behind: usize, tag: Tag) -> usize
    requires { behind + length (ordinal_of tag) ≤ length sheet.old }
    ensures end { result ≡ behind + length (ordinal_of tag) }
    ensures words { sheet.new ≡ with_ordinal sheet.old behind tag }
{
    match tag {
        Tag::Soft(ordinal) => {
            sheet[behind] = ordinal;
            behind + 1
        }
        Tag::Hard | Tag::Working => behind,
    }
}

// Makes a clause of the `count` literals that stand behind the place of its header, and returns where it ends.
pub fn enclose(sheet: &mut [u16], at: usize, tag: Tag, count: usize) -> usize
    requires room { at + 1 + count + length (ordinal_of tag) ≤ length sheet.old }
    requires count { count < 4096 }
    ensures end { result ≡ at + 1 + count + length (ordinal_of tag) }
    ensures words { take result sheet.new ≡ take at sheet.old ++ clause_words (record { tag = tag; lits = between (at + 1) (at + 1 + count) sheet.old }) }
    ensures behind { drop result sheet.new ≡ drop result sheet.old }
{
    write_header(sheet, at, tag, count);
    write_ordinal(sheet, at + 1 + count, tag)
}
