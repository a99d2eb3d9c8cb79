// Literals as 16-bit words, as clauses and records hold them.
ghost use Rattle.std.specs.Prelude.{◌≡◌};
ghost use Rattle.sheet.specs.Literals.{denied, has, item_of, opposite as denial};

// What the denial of an item has above its number.
pub const SIGN: u16 = 32768;

// The item that the literal names.
pub fn item(w: u16) -> usize
    ensures { result ≡ item_of w }
{
    usize::from(w % SIGN)
}

pub fn is_denied(w: u16) -> bool
    ensures { result ≡ denied w }
{
    w >= SIGN
}

// Fewer literals than these are looked at one by one, where they stand: the library's search of a slice looks at many at once, but is a call.
const MANY: usize = 16;

#[inline(always)]
fn is_one_of_few(lits: &[u16], w: u16) -> bool
    ensures { result ≡ has w lits.now }
{
    lits.iter().any(|x| *x == w)
}

#[inline(never)]
#[tactic(auto, using(crate::proofs::Members::has_is_any))]
fn is_one_of_many(lits: &[u16], w: u16) -> bool
    ensures { result ≡ has w lits.now }
{
    lits.contains(&w)
}

// Whether `w` is one of the literals.
#[inline(always)]
pub fn has_literal(lits: &[u16], w: u16) -> bool
    ensures { result ≡ has w lits.now }
{
    if lits.len() < MANY {
        is_one_of_few(lits, w)
    } else {
        is_one_of_many(lits, w)
    }
}

// The same item with the other sign.
pub fn opposite(w: u16) -> u16
    ensures { result ≡ denial w }
{
    if is_denied(w) { w - SIGN } else { w + SIGN }
}
