// Two parking plans of one garage, weighed exactly and as single precision would have it, and the garage's rules and wishes gathered and closed, told step by step.
#![tactic(auto)]

mod gather;
mod show;
mod story;

use weight::{Tier, Whole};

fn tell(rt: &HostRuntime) -> anyhow::Result<()> {
    story::open(rt)?;
    story::weigh_plans::<Whole>(rt)?;
    story::weigh_plans::<Tier<Whole>>(rt)?;
    gather::tell(rt)?;
    story::close(rt)?;
    Ok(())
}

fn main(rt: HostRuntime) -> anyhow::Result<()> {
    tell(&rt)
}
