// What the program says, from the garage to the verdict.
use garage::figures::{Grouped, Text};
use garage::kinds::Weighting;
use garage::level::{BAYS, HOLDERS, NORTH, Plan, SOUTH, WISHES, Wish};
use garage::weigh::{Tally, compare, cost};
use std::cmp::Ordering;
use std::io;
use weight::{Tier, Whole};

const OPENING: &str = "Level 2 of the Harbour Street garage: which of two parking plans is cheaper?

Permit holders have wishes about where they park, and every wish has a weight.
A plan pays the weight of each wish that it breaks, and the plan that pays less is chosen.
Until now the weights were added in single precision, which keeps about seven digits:
there, 16,777,216 and 1 more is still 16,777,216, and a dearer plan can pass for equal.
Here they are added exactly, and beside each sum stands what single precision makes of it.
";

const TASK: &str =
    "The planning office made the charging contract outweigh all ordinary wishes together.

The charger is being serviced this morning, so nobody can park in bay 3, and wish 1 is broken
either way. Two plans are on the table: North and South.
";

const WISHES_HEAD: &str = "\nThe wishes:                               points         two tiers";

const COLUMNS: &str =
    "                                                      weight      exact so far  single precision";

const CLOSING: &str = "Counted exactly, not one point was lost on the way.";

pub fn open(rt: &HostRuntime) -> io::Result<()> {
    rt.println(OPENING)?;
    list_bays(rt)?;
    list_holders(rt)?;
    list_wishes(rt)?;
    rt.println(TASK)
}

pub fn close(rt: &HostRuntime) -> io::Result<()> {
    rt.println(CLOSING)
}

fn list_bays(rt: &HostRuntime) -> io::Result<()> {
    rt.println("The bays:")?;
    for bay in &BAYS {
        println!(rt; "  {}  {}", bay.number, bay.place)?;
    }
    Ok(())
}

fn list_holders(rt: &HostRuntime) -> io::Result<()> {
    rt.println("\nThe permit holders:")?;
    for holder in &HOLDERS {
        println!(rt; "  {:<4}  {}", holder.name, holder.note)?;
    }
    Ok(())
}

fn list_wishes(rt: &HostRuntime) -> io::Result<()> {
    rt.println(WISHES_HEAD)?;
    for (i, wish) in WISHES.iter().enumerate() {
        list_wish(rt, i + 1, wish)?;
    }
    Ok(())
}

fn list_wish(rt: &HostRuntime, number: usize, wish: &Wish) -> io::Result<()> {
    let points = Whole::of(wish).text();
    let tiers = Tier::<Whole>::of(wish).text();
    println!(rt;
        "  {number}  {:<31}  {:>10}  {:>16}",
        wish.text,
        points.as_str(),
        tiers.as_str()
    )
}

// Both plans in one kind of weight, and the verdict.
pub fn weigh_plans<W: Weighting>(rt: &HostRuntime) -> anyhow::Result<()> {
    println!(rt; "{}\n", W::EXPLAINED)?;
    let north = weigh_plan::<W>(rt, &NORTH)?;
    let south = weigh_plan::<W>(rt, &SOUTH)?;
    judge(rt, &north, &south)?;
    Ok(())
}

fn weigh_plan<W: Weighting>(rt: &HostRuntime, plan: &Plan) -> anyhow::Result<Tally<W>> {
    println!(rt; "Plan {}: {plan}.", plan.name)?;
    let single = walk::<W>(rt, plan)?.single;
    let exact = cost::<W>(rt.alloc(), plan, &WISHES)?;
    let pays = exact.text();
    show_pays(rt, plan.name, pays.as_str(), single)?;
    Ok(Tally { exact, single })
}

fn show_pays(rt: &HostRuntime, name: &str, pays: &str, single: f32) -> io::Result<()> {
    let says = Grouped::from_single(single);
    println!(rt; "  Plan {name} pays {pays}. Single precision says {says}.\n")
}

// A line for each wish, with what the plan pays so far.
fn walk<W: Weighting>(rt: &HostRuntime, plan: &Plan) -> anyhow::Result<Tally<W>> {
    rt.println(COLUMNS)?;
    let mut tally = Tally::<W>::nothing();
    for (i, wish) in WISHES.iter().enumerate() {
        let weight = W::of(wish);
        let kept = plan.keeps(wish);
        if !kept {
            tally = tally.plus(&weight)?;
        }
        show_wish(rt, i + 1, wish, kept, &weight, &tally)?;
    }
    Ok(tally)
}

fn show_wish<W: Weighting>(
    rt: &HostRuntime,
    number: usize,
    wish: &Wish,
    kept: bool,
    weight: &W,
    tally: &Tally<W>,
) -> io::Result<()> {
    let weight = weight.text();
    let exact = tally.exact.text();
    show_outcome(rt, number, wish.text, kept)?;
    show_figures(rt, weight.as_str(), exact.as_str(), tally.single)
}

fn show_outcome(rt: &HostRuntime, number: usize, text: &str, kept: bool) -> io::Result<()> {
    let outcome = if kept { "kept" } else { "broken" };
    print!(rt; "  {number}  {text:<29}  {outcome:<6}")
}

fn show_figures(rt: &HostRuntime, weight: &str, exact: &str, single: f32) -> io::Result<()> {
    let single = Text::of(Grouped::from_single(single));
    println!(rt; "  {weight:>16}  {exact:>16}  {:>16}", single.as_str())
}

fn judge<W: Weighting>(rt: &HostRuntime, north: &Tally<W>, south: &Tally<W>) -> io::Result<()> {
    let first = north.exact.text();
    let second = south.exact.text();
    show_both(rt, first.as_str(), second.as_str())?;
    match compare(&north.exact, &south.exact) {
        Ordering::Less => show_cheaper(rt, &NORTH, &north.exact, &south.exact)?,
        Ordering::Greater => show_cheaper(rt, &SOUTH, &south.exact, &north.exact)?,
        Ordering::Equal => rt.println("The two plans are equal.")?,
    }
    show_single(rt, north.single, south.single)
}

fn show_both(rt: &HostRuntime, north: &str, south: &str) -> io::Result<()> {
    println!(rt;
        "Plan {} pays {north}; plan {} pays {south}.",
        NORTH.name, SOUTH.name
    )
}

fn show_cheaper<W: Weighting>(rt: &HostRuntime, plan: &Plan, less: &W, more: &W) -> io::Result<()> {
    match more.without(less) {
        Some(gap) => {
            let gap = gap.text();
            println!(rt; "Plan {} is cheaper, by {}.", plan.name, gap.as_str())
        }
        None => println!(rt; "Plan {} is cheaper.", plan.name),
    }
}

fn show_single(rt: &HostRuntime, north: f32, south: f32) -> io::Result<()> {
    let verdict = if north == south {
        "it would have called the two plans equal"
    } else {
        "it tells the two plans apart"
    };
    let north = Grouped::from_single(north);
    let south = Grouped::from_single(south);
    println!(rt; "Single precision says {north} and {south}: {verdict}.\n")
}
