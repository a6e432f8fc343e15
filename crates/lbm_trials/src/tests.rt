// Files that never fail, and memory that is refused.
use crate::runs::words_of;
use crate::watch::Watch;
use lbm_flow::{End, run_in_memory, run_words};
use lbm_store::{MapStore, SureSink, SureStore, VecSink};
use std::test::Fail;

// A plane of one cell at rest.
const ONE_CELL: &[u8] = b"set = \"D2Q9\"\nomega = [1, 1]\nmap = [\".\"]\n";

const ONE_CELL_VTK: &[u8] = b"# vtk DataFile Version 3.0
lattice Boltzmann step 10
ASCII
DATASET STRUCTURED_POINTS
DIMENSIONS 1 1 1
ORIGIN 0 0 0
SPACING 1 1 1
POINT_DATA 1
SCALARS density int 1
LOOKUP_TABLE default
884736
VECTORS momentum int
0 0 0
";

const ONE_CELL_LINE: &[u8] = b"step 10 mass 884736 momentum 0 0 0\n";

// Over files that never fail, a case that is not there has no bytes.
#[test]
fn files_that_never_fail_give_the_answer_of_their_bytes(rt: HostRuntime) -> Result<(), Fail> {
    let alloc = rt.alloc();
    let words = words_of(alloc, "run c 10 o")?;
    let mut store = SureStore::new(alloc);
    let mut sink = SureSink::new(alloc);
    let end = run_in_memory(
        &rt,
        alloc,
        alloc,
        &words,
        &mut store,
        &mut sink,
        &Watch::open(),
    );
    assert_eq!(rt; end.status(), 3);
    assert_eq!(rt; sink.bytes(), b"refused: missing key set\n".as_slice());
    assert!(rt; store.bytes("o").is_none());
    store.put("c", ONE_CELL)?;
    let mut sink = SureSink::new(alloc);
    let end = run_in_memory(
        &rt,
        alloc,
        alloc,
        &words,
        &mut store,
        &mut sink,
        &Watch::open(),
    );
    assert_eq!(rt; end, End::Done);
    assert_eq!(rt; sink.bytes(), ONE_CELL_LINE);
    assert_eq!(rt; store.bytes("o"), Some(ONE_CELL_VTK));
    Ok(())
}

// Where an allocation fails, as `rt try --test --fail-alloc N` makes it: the answer is that of ample memory, or want of
// memory, and then the file holds nothing or a front of its bytes. Without memory for the case and the words nothing is asked.
#[test]
fn want_of_memory_leaves_at_most_a_front_of_the_file(rt: HostRuntime) {
    let alloc = rt.alloc();
    let mut store = MapStore::new(alloc, Vec::new(alloc));
    if store.put("c", ONE_CELL).is_err() {
        return;
    }
    let Ok(words) = words_of(alloc, "run c 10 o") else {
        return;
    };
    let mut sink = VecSink::new(alloc, Vec::new(alloc));
    let end = run_words(
        &rt,
        alloc,
        alloc,
        &words,
        &mut store,
        &mut sink,
        &Watch::open(),
    );
    let out = store.bytes("o").unwrap_or(b"");
    if end == End::Memory {
        assert!(rt; ONE_CELL_VTK.starts_with(out));
        assert!(rt; b"step 10 mass 884736 momentum 0 0 0\nout of memory\n".ends_with(sink.bytes()));
    } else {
        assert_eq!(rt; end, End::Done);
        assert_eq!(rt; out, ONE_CELL_VTK);
        assert_eq!(rt; sink.bytes(), ONE_CELL_LINE);
    }
}
