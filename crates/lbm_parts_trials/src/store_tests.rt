// Writing in pieces, and the real folder and standard output.
ghost use Rattle.std.specs.Prelude.{◌<◌};

use lbm_store::{FolderStore, IoEnd, MapStore, Named, Pieces, Sink, StdoutSink, Store};
use std::test::Fail;

// Writes a file that was put in parts.
fn write_file<T: Store>(store: &mut T, name: &str, whole: &[u8], part: usize) -> Result<(), IoEnd>
    requires { 0 < part }
{
    store.create(name)?;
    let mut file = Named::new(store, name);
    let mut pieces = Pieces::new(&mut file);
    for bytes in whole.chunks(part) {
        pieces.put(bytes)?;
    }
    pieces.end()
}

// Call 0 creates the file, and each piece is one append. 14,546 bytes are three pieces of 4,096 bytes and one of 2,258; 4,096 bytes are
// one piece and 8,192 are two, with no empty one behind them: the call that would append it does not come. A failing append keeps half
// of its piece.
#[test]
fn a_file_is_written_in_pieces(rt: HostRuntime) -> Result<(), Fail> {
    let alloc = rt.alloc();
    for (length, failing, answer, kept) in [
        (14546u32, 9u64, Ok(()), Some(14546)),
        (14546, 0, Err(IoEnd::Failed), None),
        (14546, 1, Err(IoEnd::Failed), Some(2048)),
        (14546, 2, Err(IoEnd::Failed), Some(6144)),
        (14546, 3, Err(IoEnd::Failed), Some(10240)),
        (14546, 4, Err(IoEnd::Failed), Some(13417)),
        (4096, 1, Err(IoEnd::Failed), Some(2048)),
        (4096, 2, Ok(()), Some(4096)),
        (8192, 2, Err(IoEnd::Failed), Some(6144)),
        (8192, 3, Ok(()), Some(8192)),
    ] {
        let whole: Vec<u8> = (0..length).map(|i| (i % 251) as u8).collect(alloc)?;
        for part in [7, 14546] {
            let mut store = MapStore::new(alloc, vec![in alloc; failing]?);
            assert_eq!(rt;
                write_file(&mut store, "o", &whole, part),
                answer,
                "{length} bytes, call {failing} fails"
            );
            let bytes = store.bytes("o");
            assert_eq!(rt;
                bytes.map(|b| b.len()),
                kept,
                "{length} bytes, call {failing} fails"
            );
            assert!(rt;
                bytes.is_none_or(|b| whole.starts_with(b)),
                "{length} bytes, call {failing} fails"
            );
        }
    }
    Ok(())
}

// A full disk, a folder that isn't there, a name that is a folder, and a file that takes all and gives nothing.
#[test]
fn a_fault_outside_is_answered(rt: HostRuntime) {
    let mut store = FolderStore::new(&rt, rt.alloc());
    let mut buf = [0u8; 4];
    assert_eq!(rt;
        store.append("/dev/full", b"a full disk"),
        Err(IoEnd::Failed)
    );
    for name in [".", "no such folder/file", ""] {
        assert_eq!(rt; store.read(name, 0, &mut buf), Err(IoEnd::Failed), "{name}");
        assert_eq!(rt; store.create(name), Err(IoEnd::Failed), "{name}");
        assert_eq!(rt; store.append(name, b"x"), Err(IoEnd::Failed), "{name}");
    }
    assert_eq!(rt; store.create("/dev/null"), Ok(()));
    assert_eq!(rt; store.append("/dev/null", b"x"), Ok(()));
    assert_eq!(rt; store.read("/dev/null", 0, &mut buf), Ok(0));
    assert_eq!(rt; StdoutSink::new(&rt, rt.alloc()).write(b""), Ok(()));
}
