// How far the momentum of a fluid that a force pushes may drift in a run.
use crate::runs::ran;
use crate::watch::Watch;
use std::alloc::Global;
use std::test::Fail;

// The case of 12 fluid cells that a force of 1 pushes along x, and one cell of which is denser, so that collisions round.
fn pushed_case(alloc: Global, set: &str) -> Result<String, Fail> {
    let mut text = String::from_str(alloc, "set = \"")?;
    text.push_str(set)?;
    text.push_str(
        "\"\nomega = [5, 4]\nforce = [1, 0, 0]\ndigit = 1024\nmap = [\"1...\", \"....\", \"....\"]\n",
    )?;
    Ok(text)
}

// The number behind the word `momentum` of a report line.
fn momentum_told(line: &str) -> Option<i64> {
    let (_, told) = line.split_once("momentum ")?;
    let (x, _) = told.split_once(' ')?;
    x.parse().ok()
}

// In 100 steps the force gives 12 cells a third of the denominator each, 1200 times. A cell may drift in a step by one less than
// the number of directions whose part along x is 1: of these there are 3, 5, 5 and 9.
#[test]
fn momentum_drifts_no_farther_than_the_law_says(rt: HostRuntime) -> Result<(), Fail> {
    let alloc = rt.alloc();
    for (set, given, farthest) in [
        ("D2Q9", 14400i64, 2400u64),
        ("D3Q19", 14400, 4800),
        ("D3Q15", 28800, 4800),
        ("D3Q27", 86400, 9600),
    ] {
        let case = pushed_case(alloc, set)?;
        let (_, line) = ran(&rt, alloc, &case, "run c 100 o", &Watch::open())?;
        let told = momentum_told(&line).ok_or("a momentum is told")?;
        assert!(rt; told.abs_diff(given) <= farthest, "{set}");
    }
    Ok(())
}
