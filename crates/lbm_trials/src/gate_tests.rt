// Who comes to a gate, and who is at work at once.
use crate::runs::ran;
use crate::watch::{STAY_TURNS, Watch};
use std::sync::atomic::Ordering;
use std::test::Fail;

// What is told after four steps of a box in space of nine rows of three cells, of which the middle one is solid: 26 cells of
// 884736, and what the solid cell holds: 6 * 49152 + 12 * 24576.
const BOX: &str = "set = \"D3Q19\"\nomega = [1, 1]\nlayers = 3\nmap = [
    \"...\", \"...\", \"...\",
    \"...\", \".#.\", \"...\",
    \"...\", \"...\", \"...\",
]\n";

const BOX_LINE: &str = "step 4 mass 23592960 momentum 0 0 0";

// Two workers get rows 0 to 3 and rows 4 to 8. Piece 0 waits for piece 1 in each step.
#[test]
fn two_workers_are_at_work_at_once(rt: HostRuntime) -> Result<(), Fail> {
    let gate = Watch::new(1, 0);
    let (_, told) = ran(&rt, rt.alloc(), BOX, "run c 4 o --workers 2", &gate)?;
    assert_eq!(rt; told.as_str(), BOX_LINE);
    assert_eq!(rt; gate.counts(), (4, 4, 0));
    Ok(())
}

// While one of two workers has the first of nine tiles, the other takes all that are left.
#[test]
fn tiles_are_taken_on_demand_by_no_more_workers_than_asked_for(
    rt: HostRuntime,
) -> Result<(), Fail> {
    let gate = Watch::new(8, STAY_TURNS);
    let line = "run c 4 o --pattern tiles --tile 1 --workers 2";
    let (_, told) = ran(&rt, rt.alloc(), BOX, line, &gate)?;
    assert_eq!(rt; told.as_str(), BOX_LINE);
    assert_eq!(rt; gate.counts(), (4, 32, 0));
    assert_eq!(rt; gate.most_inside.load(Ordering::SeqCst), 2);
    Ok(())
}

// A plane of three rows.
const PLANE: &str = "set = \"D2Q9\"\nomega = [1, 1]\nmap = [\"..\", \"..\", \"..\"]\n";

// Three slabs or tiles of one row each enter once in each of two steps: 1 + 2 + 3 twice.
#[test]
fn each_piece_passes_the_gate_once_a_step_of_each_pattern(rt: HostRuntime) -> Result<(), Fail> {
    for line in [
        "run c 2 o --cut 1,2 --pattern two",
        "run c 2 o --cut 1,2 --pattern swap",
        "run c 2 o --cut 1,2 --pattern grid",
        "run c 2 o --cut 1,2 --pattern aa",
        "run c 2 o --tile 1 --workers 2 --pattern tiles",
    ] {
        let gate = Watch::open();
        ran(&rt, rt.alloc(), PLANE, line, &gate)?;
        assert_eq!(rt; gate.counts(), (2, 4, 0), "{line}");
        assert_eq!(rt; gate.sum.load(Ordering::SeqCst), 12, "{line}");
    }
    Ok(())
}
