// Worked examples of what the definitions come to, as rows of one list, proved together.
#![tactic(auto)]

ghost use Rattle.std.specs.Prelude.{◌≡◌, length};
ghost use Rattle.examples.specs.Examples.{rows, EveryRowHolds};

// How many rows there are. Each of them holds.
pub fn examples_hold() -> usize
    ensures count { result ≡ length rows }
    ensures hold { EveryRowHolds }
{
    15
}
