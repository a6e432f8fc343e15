// Cases that are mirrored, turned over and shifted, through the whole program: the file of the moved case is the file of the case,
// moved cell by cell. Walls move, there are two rates of relaxation, a force on each axis, and denser cells.
use crate::runs::ran;
use crate::watch::Watch;
use std::alloc::Global;
use std::marker::Sync;
use std::process::Abort;
use std::test::Fail;
use std::thread::Threads;

// What becomes of a vector.
#[derive(Clone, Copy, Debug)]
enum Turn {
    MirrorX,
    MirrorZ,
    ExchangeXy,
    ExchangeXz,
    Shift,
}

fn turned(turn: Turn, u: [i64; 3]) -> [i64; 3] {
    let [x, y, z] = u;
    match turn {
        Turn::MirrorX => [x.wrapping_neg(), y, z],
        Turn::MirrorZ => [x, y, z.wrapping_neg()],
        Turn::ExchangeXy => [y, x, z],
        Turn::ExchangeXz => [z, y, x],
        Turn::Shift => [x, y, z],
    }
}

// A moved case of twelve cells: for each cell of the case, in order, the cell to which it is moved, and what it is drawn as.
struct Moved {
    turn: Turn,
    places: [usize; 12],
    text: &'static str,
}

// Four columns and three rows.
const PLANE: &str =
    "set = \"D2Q9\"\nomega = [5, 4]\nomega_minus = 3\nforce = [3, -2, 0]\nmomentum = [100, 50, 0]\nwall = [64, 32, 0]\ndigit = 1024\nmap = [\"=1..\", \"..#.\", \"3...\"]\n";

const MOVED_PLANES: [Moved; 3] = [
    Moved {
        turn: Turn::MirrorX,
        places: [3, 2, 1, 0, 7, 6, 5, 4, 11, 10, 9, 8],
        text: "set = \"D2Q9\"\nomega = [5, 4]\nomega_minus = 3\nforce = [-3, -2, 0]\nmomentum = [-100, 50, 0]\nwall = [-64, 32, 0]\ndigit = 1024\nmap = [\"..1=\", \".#..\", \"...3\"]\n",
    },
    Moved {
        turn: Turn::ExchangeXy,
        places: [0, 3, 6, 9, 1, 4, 7, 10, 2, 5, 8, 11],
        text: "set = \"D2Q9\"\nomega = [5, 4]\nomega_minus = 3\nforce = [-2, 3, 0]\nmomentum = [50, 100, 0]\nwall = [32, 64, 0]\ndigit = 1024\nmap = [\"=.3\", \"1..\", \".#.\", \"...\"]\n",
    },
    // One column to the right and two rows up.
    Moved {
        turn: Turn::Shift,
        places: [9, 10, 11, 8, 1, 2, 3, 0, 5, 6, 7, 4],
        text: "set = \"D2Q9\"\nomega = [5, 4]\nomega_minus = 3\nforce = [3, -2, 0]\nmomentum = [100, 50, 0]\nwall = [64, 32, 0]\ndigit = 1024\nmap = [\"...#\", \".3..\", \".=1.\"]\n",
    },
];

// Three columns and two rows in two layers.
const BOX: &str =
    "set = \"D3Q19\"\nomega = [5, 4]\nomega_minus = 3\nforce = [3, -2, 1]\nmomentum = [100, 50, -25]\nwall = [64, 32, -16]\ndigit = 1024\nlayers = 2\nmap = [\"=1.\", \"..#\", \".2.\", \"...\"]\n";

const MOVED_BOXES: [Moved; 3] = [
    Moved {
        turn: Turn::MirrorZ,
        places: [6, 7, 8, 9, 10, 11, 0, 1, 2, 3, 4, 5],
        text: "set = \"D3Q19\"\nomega = [5, 4]\nomega_minus = 3\nforce = [3, -2, -1]\nmomentum = [100, 50, 25]\nwall = [64, 32, 16]\ndigit = 1024\nlayers = 2\nmap = [\".2.\", \"...\", \"=1.\", \"..#\"]\n",
    },
    Moved {
        turn: Turn::ExchangeXz,
        places: [0, 4, 8, 2, 6, 10, 1, 5, 9, 3, 7, 11],
        text: "set = \"D3Q19\"\nomega = [5, 4]\nomega_minus = 3\nforce = [1, -2, 3]\nmomentum = [-25, 50, 100]\nwall = [-16, 32, 64]\ndigit = 1024\nlayers = 3\nmap = [\"=.\", \"..\", \"12\", \"..\", \"..\", \"#.\"]\n",
    },
    // Two columns to the right, one row up and one layer up.
    Moved {
        turn: Turn::Shift,
        places: [11, 9, 10, 8, 6, 7, 5, 3, 4, 2, 0, 1],
        text: "set = \"D3Q19\"\nomega = [5, 4]\nomega_minus = 3\nforce = [3, -2, 1]\nmomentum = [100, 50, -25]\nwall = [64, 32, -16]\ndigit = 1024\nlayers = 2\nmap = [\"...\", \"2..\", \".#.\", \"1.=\"]\n",
    },
];

// The three numbers of a line.
fn vector_in(line: &str) -> Option<[i64; 3]> {
    let (x, rest) = line.split_once(' ')?;
    let (y, z) = rest.split_once(' ')?;
    Some([x.parse().ok()?, y.parse().ok()?, z.parse().ok()?])
}

// The file that a run of seven steps of a case writes, and the line that it tells.
fn ran_by<R: Threads + Sync>(
    rt: &R,
    alloc: Global,
    pattern: &str,
    case: &str,
) -> Result<(String, String), Fail> {
    let line = format!(in alloc; "run c 7 o --workers 3 --pattern {pattern}")?;
    ran(rt, alloc, case, &line, &Watch::open())
}

// The lines of a text.
fn lines_of(alloc: Global, text: &str) -> Result<Vec<&str>, Fail> {
    let mut lines = Vec::new(alloc);
    for line in text.split("\n") {
        lines.push(line)?;
    }
    Ok(lines)
}

// Whether the moved file has the density of each cell, and its momentum turned, at the cell to which it is moved. The densities stand
// behind ten lines of heading, and the momenta behind these and one line more.
fn are_moved(file: &[&str], there: &[&str], moved: &Moved) -> bool {
    for (cell, place) in moved.places.iter().enumerate() {
        let Some(density) = file.get(10 + cell) else {
            return false;
        };
        let Some(momentum) = file.get(23 + cell).and_then(|line| vector_in(line)) else {
            return false;
        };
        let found = there.get(10usize.wrapping_add(*place));
        let vector = there
            .get(23usize.wrapping_add(*place))
            .and_then(|line| vector_in(line));
        if found != Some(density) || vector != Some(turned(moved.turn, momentum)) {
            return false;
        }
    }
    true
}

// Whether the moved run told the same step and mass, and the momentum turned.
fn is_told(told: &str, there: &str, turn: Turn) -> bool {
    match (
        told.split_once(" momentum "),
        there.split_once(" momentum "),
    ) {
        (Some((mass, momentum)), Some((mass_there, momentum_there))) => {
            let wanted = vector_in(momentum).map(|u| turned(turn, u));
            mass == mass_there && wanted.is_some() && vector_in(momentum_there) == wanted
        }
        _ => false,
    }
}

// Runs a case and the moved ones by each pattern.
fn compare<R: Threads + Sync + Abort>(
    rt: &R,
    alloc: Global,
    case: &str,
    all_moved: &[Moved],
) -> Result<(), Fail> {
    for pattern in ["two", "swap", "grid", "aa", "tiles"] {
        let (file, told) = ran_by(rt, alloc, pattern, case)?;
        let lines = lines_of(alloc, &file)?;
        for moved in all_moved.iter() {
            let (moved_file, moved_told) = ran_by(rt, alloc, pattern, moved.text)?;
            let moved_lines = lines_of(alloc, &moved_file)?;
            let turn = moved.turn;
            assert!(rt;
                are_moved(&lines, &moved_lines, moved),
                "{pattern} {turn:?}"
            );
            assert!(rt; is_told(&told, &moved_told, turn), "{pattern} {turn:?}");
            // What has not moved is told apart.
            assert!(rt; !are_moved(&lines, &lines, moved), "{pattern} {turn:?}");
        }
    }
    Ok(())
}

#[test]
fn a_moved_plane_runs_as_the_plane_does(rt: HostRuntime) -> Result<(), Fail> {
    compare(&rt, rt.alloc(), PLANE, &MOVED_PLANES)
}

#[test]
fn a_moved_box_in_space_runs_as_the_box_does(rt: HostRuntime) -> Result<(), Fail> {
    compare(&rt, rt.alloc(), BOX, &MOVED_BOXES)
}
