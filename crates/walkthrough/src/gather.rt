// The garage's rules and wishes, sent as clauses to a gathering sheet, and closed.
use crate::show::Sent;
use garage::figures::Text;
use garage::kinds::Weighting;
use garage::level::{ITEMS, RULES, SLIPS, WISHES};
use session::claim::Claim;
use session::gathering::Gathering;
use session::gathering::open::open;
use session::working::Working;
use sheet::refusal::Refusal;
use sheet::row::{Item, Standing};
use std::io;
use weight::Whole;

const OPENING: &str =
    "Now the same garage as the solver will see it. Items 1 to 12 say who parks in which bay, and item 13
that the overflow level is opened. Rules and wishes are sent as clauses, one by one; a minus denies an item.
";

const CLOSING: &str =
    "Closing gives every wish a label: an item that says, when it is paid, that the wish may be broken.
";

const STACK: [u16; 0] = [];

// The buffers that are lent to the calls.
#[derive(Drop)]
struct Desk {
    sheet: [u16; 128],
    row: [Item; 24],
    weights: [Whole; 8],
}

impl Desk {
    fn empty() -> Desk {
        Desk {
            sheet: [0; 128],
            row: [Item::PLAIN; 24],
            weights: [Whole { units: 0 }; 8],
        }
    }

    fn open(&mut self) -> Result<Gathering, Refusal> {
        open(ITEMS, &self.sheet, &mut self.row, &STACK, &self.weights)
    }

    // How many words an accepted clause takes.
    fn add(
        &mut self,
        gathering: &mut Gathering,
        literals: &[i32],
        claim: Claim<Whole>,
    ) -> Result<usize, Refusal> {
        let before = gathering.words();
        gathering.add(
            literals,
            claim,
            &mut self.sheet,
            &self.row,
            &STACK,
            &mut self.weights,
        )?;
        Ok(gathering.words().saturating_sub(before))
    }

    // The item that is the label of this ordinal.
    fn label_of(&self, ordinal: usize) -> Option<usize> {
        let place = self.row.iter().position(|item| {
            item.standing == Standing::Label && usize::from(item.ordinal) == ordinal
        })?;
        Some(place + 1)
    }
}

pub fn tell(rt: &HostRuntime) -> io::Result<()> {
    rt.println(OPENING)?;
    let mut desk = Desk::empty();
    match desk.open() {
        Ok(mut gathering) => {
            send_rules(rt, &mut gathering, &mut desk)?;
            send_wishes(rt, &mut gathering, &mut desk)?;
            show_words(rt, gathering.words())?;
            close(rt, gathering, &mut desk)
        }
        Err(refusal) => show_refusal(rt, &refusal),
    }
}

fn send_rules(rt: &HostRuntime, gathering: &mut Gathering, desk: &mut Desk) -> io::Result<()> {
    for rule in &RULES {
        let answer = desk.add(gathering, rule.literals, Claim::Hard);
        show_sent(rt, "rule", rule.text, rule.literals, answer)?;
    }
    Ok(())
}

fn send_wishes(rt: &HostRuntime, gathering: &mut Gathering, desk: &mut Desk) -> io::Result<()> {
    for wish in WISHES.iter().chain(&SLIPS) {
        let claim = Claim::Soft(Whole::of(wish));
        let answer = desk.add(gathering, wish.literals, claim);
        show_sent(rt, "wish", wish.text, wish.literals, answer)?;
    }
    Ok(())
}

fn show_sent(
    rt: &HostRuntime,
    kind: &str,
    text: &str,
    literals: &'static [i32],
    answer: Result<usize, Refusal>,
) -> io::Result<()> {
    let sent = Text::of(Sent(literals));
    print!(rt; "  {kind}  {text:<34}  {:<14}  ", sent.as_str())?;
    match answer {
        Ok(words) => println!(rt; "accepted, {words} words"),
        Err(refusal) => show_refusal(rt, &refusal),
    }
}

// No `Display`: the type is another crate's, and one of our own around it is no plainer.
fn show_refusal(rt: &HostRuntime, refusal: &Refusal) -> io::Result<()> {
    let number = refusal.number();
    let value = refusal.value();
    println!(rt; "refused, number {number}, value {value}")
}

fn show_words(rt: &HostRuntime, words: usize) -> io::Result<()> {
    println!(rt; "The sheet now has {words} words.\n")
}

fn close(rt: &HostRuntime, gathering: Gathering, desk: &mut Desk) -> io::Result<()> {
    rt.println(CLOSING)?;
    match gathering.close(&mut desk.sheet, &mut desk.row, &STACK, &desk.weights) {
        Ok(working) => show_labels(rt, &working, desk),
        Err((_, refusal)) => show_refusal(rt, &refusal),
    }
}

fn show_labels(rt: &HostRuntime, working: &Working, desk: &Desk) -> io::Result<()> {
    for (ordinal, wish) in WISHES.iter().enumerate() {
        show_label(rt, ordinal + 1, wish.text, desk.label_of(ordinal))?;
    }
    show_closed(rt, working.words(), working.items())
}

// A line is one write.
fn show_label(rt: &HostRuntime, number: usize, text: &str, label: Option<usize>) -> io::Result<()> {
    match label {
        Some(label) if label as u64 <= ITEMS => {
            println!(rt; "  {number}  {text:<29}  its own item, {label}")
        }
        Some(label) => println!(rt; "  {number}  {text:<29}  a fresh label, {label}"),
        None => println!(rt; "  {number}  {text:<29}  no label"),
    }
}

fn show_closed(rt: &HostRuntime, words: usize, items: usize) -> io::Result<()> {
    println!(rt;
        "The sheet now has {words} words and {items} items. A wish that lends its own item leaves the sheet.\n"
    )
}
