// What a test lends, and the calls over it. A refusal is told by its number and its value.
use meaning::report::Ending;
use rules::rule::Rule;
use session::claim::Claim;
use session::delivered::Delivered;
use session::gathering::Gathering;
use session::gathering::open::open;
use session::working::Working;
use sheet::refusal::Refusal;
use sheet::row::{Item, Standing};
use std::process::Abort;
use std::test::Fail;
use weight::Whole;

pub type Told = (u8, u64);

pub type Answer = Result<(), Told>;

// A clause, and the answer that it should get.
pub type Sent<'a> = (&'a [i32], Claim<Whole>, Answer);

pub const HARD: Claim<Whole> = Claim::Hard;

pub const NOTHING: Whole = Whole { units: 0 };

pub const CEILING: u64 = 4_611_686_018_427_387_904;

pub const FIXED: Item = Item {
    standing: Standing::Fixed,
    ordinal: 0,
};

pub fn label(ordinal: u16) -> Item {
    Item {
        standing: Standing::Label,
        ordinal,
    }
}

pub fn soft(units: u64) -> Claim<Whole> {
    Claim::Soft(Whole { units })
}

pub fn told(refusal: Refusal) -> Told {
    (refusal.number(), refusal.value())
}

// What a test lends: S words, R items, T words of records and W weights.
#[derive(Clone, Copy, Debug, PartialEq)]
pub struct Lent<const S: usize, const R: usize, const T: usize, const W: usize> {
    pub sheet: [u16; S],
    pub row: [Item; R],
    pub stack: [u16; T],
    pub weights: [Whole; W],
}

impl<const S: usize, const R: usize, const W: usize> Lent<S, R, 0, W> {
    // With an empty stack.
    pub fn of(sheet: [u16; S], row: [Item; R], weights: [Whole; W]) -> Lent<S, R, 0, W> {
        Lent {
            sheet,
            row,
            stack: [],
            weights,
        }
    }
}

impl<const S: usize, const R: usize, const T: usize, const W: usize> Lent<S, R, T, W> {
    // The same with another sheet; the two below likewise.
    pub fn with_sheet<const N: usize>(&self, sheet: [u16; N]) -> Lent<N, R, T, W> {
        Lent {
            sheet,
            row: self.row,
            stack: self.stack,
            weights: self.weights,
        }
    }

    pub fn with_row<const N: usize>(&self, row: [Item; N]) -> Lent<S, N, T, W> {
        Lent {
            sheet: self.sheet,
            row,
            stack: self.stack,
            weights: self.weights,
        }
    }

    pub fn with_weights<const N: usize>(&self, weights: [Whole; N]) -> Lent<S, R, T, N> {
        Lent {
            sheet: self.sheet,
            row: self.row,
            stack: self.stack,
            weights,
        }
    }

    // Sends clauses one by one.
    pub fn send(&mut self, rt: &impl Abort, gathering: &mut Gathering, adds: &[Sent<'_>]) {
        for (place, (lits, claim, answer)) in adds.iter().enumerate() {
            let added = gathering.add(
                lits,
                *claim,
                &mut self.sheet,
                &self.row,
                &self.stack,
                &mut self.weights,
            );
            assert_eq!(rt; added.map_err(told), *answer, "add {place}");
        }
    }

    // Opens a sheet and sends clauses to it.
    pub fn gathered(
        &mut self,
        rt: &impl Abort,
        items: u64,
        adds: &[Sent<'_>],
    ) -> Result<Gathering, Fail> {
        let mut gathering = open(
            items,
            &self.sheet,
            &mut self.row,
            &self.stack,
            &self.weights,
        )?;
        self.send(rt, &mut gathering, adds);
        Ok(gathering)
    }

    // A close that passes.
    pub fn closed(&mut self, gathering: Gathering) -> Result<Working, Fail> {
        match gathering.close(&mut self.sheet, &mut self.row, &self.stack, &self.weights) {
            Ok(working) => Ok(working),
            Err((_, refusal)) => Err(refusal.into()),
        }
    }

    // A close that is refused and changes nothing, and the state that it gives back.
    pub fn close_refused(
        &mut self,
        rt: &impl Abort,
        gathering: Gathering,
        refusal: Told,
    ) -> Result<Gathering, Fail> {
        let before = *self;
        match gathering.close(&mut self.sheet, &mut self.row, &self.stack, &self.weights) {
            Ok(_) => Err(Fail::new("closed")),
            Err((gathering, cause)) => {
                assert_eq!(rt; told(cause), refusal);
                assert_eq!(rt; *self, before);
                Ok(gathering)
            }
        }
    }

    // Clauses gathered and closed.
    pub fn worked(
        &mut self,
        rt: &impl Abort,
        items: u64,
        adds: &[Sent<'_>],
    ) -> Result<Working, Fail> {
        let gathering = self.gathered(rt, items, adds)?;
        self.closed(gathering)
    }

    // Three items, with {1, 2}, {2, not 3} and {3, 4}; items 1, 2 and 4 are labels that cost 5, 3 and 2.
    pub fn small(&mut self, rt: &impl Abort) -> Result<Working, Fail> {
        let adds: [Sent<'_>; 5] = [
            (&[1, 2], HARD, Ok(())),
            (&[-3, 2], HARD, Ok(())),
            (&[-1], soft(5), Ok(())),
            (&[-2], soft(3), Ok(())),
            (&[3], soft(2), Ok(())),
        ];
        self.worked(rt, 3, &adds)
    }

    // The steps of a run and its ending.
    pub fn run<P: Rule<Whole>>(
        &mut self,
        working: &mut Working,
        rule: &P,
        limit: u64,
    ) -> Result<(u64, Ending), Told> {
        let report = working
            .run(
                rule,
                &mut self.sheet,
                &mut self.row,
                &mut self.stack,
                &self.weights,
                limit,
            )
            .map_err(told)?;
        Ok((report.steps, report.ending))
    }

    pub fn deliver(&self, working: Working) -> Delivered {
        working.deliver(&self.sheet, &self.row, &self.stack, &self.weights)
    }

    pub fn settle(&self, delivered: Delivered) -> Working {
        delivered.settle(&self.sheet, &self.row, &self.stack, &self.weights)
    }

    // Both costs of an answer.
    pub fn unwind(&self, delivered: &Delivered, answer: &mut [u8]) -> Result<(u64, u64), Told> {
        let (sent, paid) = delivered
            .unwind(answer, &self.sheet, &self.row, &self.stack, &self.weights)
            .map_err(told)?;
        Ok((sent.units, paid.units))
    }

    // An answer that passes becomes this plan at these costs.
    pub fn unwinds<const N: usize>(
        &self,
        rt: &impl Abort,
        delivered: &Delivered,
        mut answer: [u8; N],
        plan: [u8; N],
        costs: (u64, u64),
    ) {
        assert_eq!(rt; self.unwind(delivered, &mut answer), Ok(costs));
        assert_eq!(rt; answer, plan);
    }

    // An answer that is refused stays as it was sent.
    pub fn refuses<const N: usize>(
        &self,
        rt: &impl Abort,
        delivered: &Delivered,
        sent: [u8; N],
        refusal: Told,
    ) {
        let mut answer = sent;
        assert_eq!(rt; self.unwind(delivered, &mut answer), Err(refusal));
        assert_eq!(rt; answer, sent);
    }
}
