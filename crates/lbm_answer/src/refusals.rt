// The lines of refused case files and voxel files.
ghost use Rattle.std.specs.Prelude.{◌≡◌, ◌+◌, ◌<◌, ◌≤◌, ◌++◌, length, codes};
ghost use Rattle.arrayvec.specs.ArrayString.{array_string_len};
ghost use Rattle.lbm_case.specs.Keys.{name_of};
ghost use Rattle.lbm_answer.specs.declared.answer.End.TheVariants.{Case, Voxel as BadVoxel};
ghost use Rattle.lbm_answer.specs.Lines.{line_of, fault_of, printed, printed_byte};

use crate::lines::{Line, put_number};
use lbm_case::{CaseFault, Key};
use lbm_voxel::VoxelFault;

/// How many bytes of a name that is no key are printed.
const PRINTED: usize = 40;

/// The line of a refused case file.
pub(crate) fn case_line(fault: &CaseFault) -> Line
    ensures { result.bytes ≡ line_of (Case fault.now) }
{
    let mut line = Line::new();
    line.push_str("refused: ");
    put_fault(&mut line, fault);
    line.push_str("\n");
    line
}

/// The line of a refused voxel file.
pub(crate) fn voxel_line(fault: VoxelFault) -> Line
    ensures { result.bytes ≡ line_of (BadVoxel fault) }
{
    let mut line = Line::new();
    line.push_str("refused: voxel ");
    match fault {
        VoxelFault::Head(k) => put_number(&mut line, "head ", k),
        VoxelFault::Word(n) => put_number(&mut line, "word ", n),
        VoxelFault::Sides => line.push_str("sides"),
        VoxelFault::Count => line.push_str("count"),
        VoxelFault::Value(k) => put_number(&mut line, "value ", k),
    }
    line.push_str("\n");
    line
}

// Puts what is wrong at the end of the line.
fn put_fault(line: &mut Line, fault: &CaseFault)
    requires { array_string_len line.old ≤ 20 }
    ensures text { line.new.bytes ≡ line.old.bytes ++ fault_of fault.now }
    ensures len { array_string_len line.new ≤ 120 }
{
    match fault {
        CaseFault::NotToml => line.push_str("case is not TOML"),
        CaseFault::UnknownKey(name) => put_name(line, name.bytes()),
        CaseFault::MissingKey(key) => put_key(line, "missing key ", *key),
        CaseFault::WrongKind(key) => put_key(line, "wrong kind ", *key),
        CaseFault::BadNumber(key) => put_key(line, "bad number ", *key),
        CaseFault::BadSet => line.push_str("bad set"),
        CaseFault::EmptyMap => line.push_str("empty map"),
        CaseFault::Ragged(row) => put_number(line, "ragged row ", *row),
        CaseFault::BadChar(row, column) => put_place(line, *row, *column),
        CaseFault::TooLarge => line.push_str("too large"),
    }
}

fn put_place(line: &mut Line, row: u32, column: u32)
    requires { array_string_len line.old ≤ 20 }
    ensures text { line.new.bytes ≡ line.old.bytes ++ fault_of (CaseFault.BadChar row column) }
    ensures len { array_string_len line.new ≤ 120 }
{
    put_number(line, "bad character ", row);
    put_number(line, " ", column);
}

// Puts a word and the name of a key at the end of the line.
fn put_key(line: &mut Line, word: &str, key: Key)
    requires { array_string_len line.old + length word.now ≤ 40 }
    ensures text { line.new.bytes ≡ line.old.bytes ++ word.now ++ name_of key }
    ensures len { array_string_len line.new ≤ 120 }
{
    line.push_str(word);
    line.push_str(key.name());
}

// Puts a name that is no key at the end of the line.
fn put_name(line: &mut Line, name: &[u8])
    requires { array_string_len line.old ≤ 20 }
    ensures text { line.new.bytes ≡ line.old.bytes ++ codes "unknown key " ++ printed name.now }
    ensures len { array_string_len line.new ≤ 120 }
{
    line.push_str("unknown key ");
    for byte in &name[..PRINTED.min(name.len())] {
        line.push(printed_char(*byte));
    }
}

// A byte as it is printed.
fn printed_char(byte: u8) -> char
    ensures value { result ≡ printed_byte byte }
    ensures ascii { result < 128 }
{
    if byte >= b' ' && byte <= b'~' {
        char::from(byte)
    } else {
        '?'
    }
}
