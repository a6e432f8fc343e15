//! VTK files: the density and the momentum of each cell, for a viewer.
#![tactic(auto)]

ghost use Rattle.std.specs.Prelude.{◌≡◌, All, FitsSigned, length, List, [], ◌∷◌};
ghost use Rattle.std.specs.Int.{w32};
ghost use Rattle.std.specs.List.{flat_map};
ghost use Rattle.lbm_space.specs.Torus.{cells as cell_count};
ghost use Rattle.lbm_store.specs.Outside.{Writes};
ghost use Rattle.lbm_store.specs.Pieces.{Puts};
ghost use Rattle.lbm_vtk.specs.declared.Format.TheVariants.{Ascii, Binary};
ghost use Rattle.lbm_vtk.specs.Vtk.{FitsInts, density, four_bytes, head, line, momentum, name, numbers_end, row, scalars, table, vtk};

use itoa::Buffer;
use lbm_cell::Moment;
use lbm_space::Space;
use lbm_store::{IoEnd, Pieces, Sink};

/// How the numbers of a file are written.
#[derive(Clone, Copy, Debug, PartialEq, Eq)]
pub enum Format {
    /// In decimal, in lines of text.
    Ascii,
    /// As four bytes each, the highest first.
    Binary,
}

impl Format {
    /// The form, as the file names it.
    fn name(self) -> &'static [u8]
        ensures { result.now ≡ name self }
    {
        match self {
            Format::Ascii => b"ASCII",
            Format::Binary => b"BINARY",
        }
    }

    /// What follows the numbers of all cells.
    fn numbers_end(self) -> &'static [u8]
        ensures { result.now ≡ numbers_end self }
    {
        match self {
            Format::Ascii => b"",
            Format::Binary => b"\n",
        }
    }
}

/// Writes the density and the momentum of each cell, in lattice units, as a file in the legacy VTK
/// format, version 3.0, with the dataset `STRUCTURED_POINTS`.
///
/// The file has ten lines that tell the step, the form, the sides and the number of cells, then the
/// density of each cell, the line `VECTORS momentum int`, and the three parts of the momentum of each
/// cell. In ASCII each cell has a line for its density and one for its momentum. In binary each number
/// has four bytes, in two's complement and the highest first, and one line feed follows all densities
/// and another all momenta; so there each number is to have at most 32 signed bits. `cells` has one
/// moment for each cell of the space, in the order of the cells' numbers.
///
/// After an error the sink has got a front of the file. It takes no memory of its own.
pub fn write_vtk<K: Sink>(
    out: &mut K,
    space: &Space,
    step: u64,
    cells: &[Moment],
    format: Format,
) -> Result<(), IoEnd>
    requires cells { length cells.now ≡ cell_count space.now }
    requires fits { format ≡ Binary → All FitsInts cells.now }
    ensures { Writes (K.state out.old) (K.state out.new) result (vtk space.now step cells.now format) }
{
    let mut pieces = Pieces::new(out);
    put_file(&mut pieces, space, step, cells, format)?;
    pieces.end()
}

fn put_file<K: Sink>(
    pieces: &mut Pieces<'_, K>,
    space: &Space,
    step: u64,
    cells: &[Moment],
    format: Format,
) -> Result<(), IoEnd>
    requires cells { length cells.now ≡ cell_count space.now }
    requires fits { format ≡ Binary → All FitsInts cells.now }
    ensures { Puts K.state pieces.old pieces.new result (vtk space.now step cells.now format) }
{
    let heading = Heading {
        title: b"lattice Boltzmann step ",
        step,
        field: b"density",
    };
    put_head(pieces, space, &heading, cells.len() as u64, format)?;
    put_densities(pieces, cells, format)?;
    pieces.put(b"VECTORS momentum int\n")?;
    put_momenta(pieces, cells, format)
}

/// What the lines before the numbers tell beside the space.
#[derive(Clone, Copy, Debug)]
pub struct Heading {
    /// The second line, which ends with the step.
    pub title: &'static [u8],
    pub step: u64,
    /// The name of the first numbers.
    pub field: &'static [u8],
}

/// Writes one number for each cell as a file in the legacy VTK format, version 3.0, in ASCII, with the dataset
/// `STRUCTURED_POINTS`: the ten lines of `write_vtk`, with another title and another name for the numbers, then each
/// cell's number on a line of its own. `numbers` has one for each cell of the space, in the order of the cells' numbers;
/// a viewer wants them to have at most 32 signed bits.
///
/// After an error the sink has got a front of the file. It takes no memory of its own.
pub fn write_scalars<K: Sink>(
    out: &mut K,
    space: &Space,
    heading: &Heading,
    numbers: &[i64],
) -> Result<(), IoEnd>
    requires { length numbers.now ≡ cell_count space.now }
    ensures { Writes (K.state out.old) (K.state out.new) result (scalars space.now heading.now.title.now heading.now.step heading.now.field.now numbers.now) }
{
    let mut pieces = Pieces::new(out);
    put_scalars(&mut pieces, space, heading, numbers)?;
    pieces.end()
}

fn put_scalars<K: Sink>(
    pieces: &mut Pieces<'_, K>,
    space: &Space,
    heading: &Heading,
    numbers: &[i64],
) -> Result<(), IoEnd>
    requires { length numbers.now ≡ cell_count space.now }
    ensures { Puts K.state pieces.old pieces.new result (scalars space.now heading.now.title.now heading.now.step heading.now.field.now numbers.now) }
{
    put_head(pieces, space, heading, numbers.len() as u64, Format::Ascii)?;
    put_numbers(pieces, numbers)
}

/// Puts a line for each number.
fn put_numbers<K: Sink>(pieces: &mut Pieces<'_, K>, numbers: &[i64]) -> Result<(), IoEnd>
    ensures { Puts K.state pieces.old pieces.new result (flat_map (λ number. row Ascii (number ∷ [])) numbers.now) }
{
    for number in numbers {
        put_number(pieces, number, Format::Ascii)?;
    }
    Ok(())
}

/// Puts the lines before the numbers.
fn put_head<K: Sink>(
    pieces: &mut Pieces<'_, K>,
    space: &Space,
    heading: &Heading,
    count: u64,
    format: Format,
) -> Result<(), IoEnd>
    requires { count ≡ cell_count space.now }
    ensures { Puts K.state pieces.old pieces.new result (flat_map line (head space.now heading.now.title.now heading.now.step heading.now.field.now format)) }
{
    let [nx, ny, nz] = space.sides();
    put_parts(
        pieces,
        &[
            b"# vtk DataFile Version 3.0\n".as_slice(),
            heading.title,
            Buffer::new().format(heading.step).as_bytes(),
            b"\n".as_slice(),
            format.name(),
            b"\nDATASET STRUCTURED_POINTS\nDIMENSIONS ".as_slice(),
            Buffer::new().format(nx).as_bytes(),
            b" ".as_slice(),
            Buffer::new().format(ny).as_bytes(),
            b" ".as_slice(),
            Buffer::new().format(nz).as_bytes(),
            b"\nORIGIN 0 0 0\nSPACING 1 1 1\nPOINT_DATA ".as_slice(),
            Buffer::new().format(count).as_bytes(),
            b"\nSCALARS ".as_slice(),
            heading.field,
            b" int 1\nLOOKUP_TABLE default\n".as_slice(),
        ],
    )
}

/// Puts the density of each cell.
fn put_densities<K: Sink>(
    pieces: &mut Pieces<'_, K>,
    cells: &[Moment],
    format: Format,
) -> Result<(), IoEnd>
    requires fits { format ≡ Binary → All FitsInts cells.now }
    ensures { Puts K.state pieces.old pieces.new result (table format density cells.now) }
{
    for cell in cells {
        put_number(pieces, &cell.rho, format)?;
    }
    pieces.put(format.numbers_end())
}

/// Puts the one number of a cell.
fn put_number<K: Sink>(
    pieces: &mut Pieces<'_, K>,
    number: &i64,
    format: Format,
) -> Result<(), IoEnd>
    requires fits { format ≡ Binary → FitsSigned w32 number.now }
    ensures { Puts K.state pieces.old pieces.new result (row format (number.now ∷ [])) }
{
    match format {
        Format::Ascii => put_parts(
            pieces,
            &[Buffer::new().format(*number).as_bytes(), b"\n".as_slice()],
        ),
        Format::Binary => pieces.put(&four_bytes(*number)),
    }
}

/// Puts the momentum of each cell.
fn put_momenta<K: Sink>(
    pieces: &mut Pieces<'_, K>,
    cells: &[Moment],
    format: Format,
) -> Result<(), IoEnd>
    requires fits { format ≡ Binary → All FitsInts cells.now }
    ensures { Puts K.state pieces.old pieces.new result (table format momentum cells.now) }
{
    for cell in cells {
        put_momentum(pieces, cell, format)?;
    }
    pieces.put(format.numbers_end())
}

fn put_momentum<K: Sink>(
    pieces: &mut Pieces<'_, K>,
    cell: &Moment,
    format: Format,
) -> Result<(), IoEnd>
    requires fits { format ≡ Binary → FitsInts cell.now }
    ensures { Puts K.state pieces.old pieces.new result (row format (momentum cell.now)) }
{
    match format {
        Format::Ascii => put_parts(
            pieces,
            &[
                Buffer::new().format(cell.jx).as_bytes(),
                b" ".as_slice(),
                Buffer::new().format(cell.jy).as_bytes(),
                b" ".as_slice(),
                Buffer::new().format(cell.jz).as_bytes(),
                b"\n".as_slice(),
            ],
        ),
        Format::Binary => put_parts(
            pieces,
            &[
                four_bytes(cell.jx).as_slice(),
                four_bytes(cell.jy).as_slice(),
                four_bytes(cell.jz).as_slice(),
            ],
        ),
    }
}

/// A number in two's complement, the highest byte first.
fn four_bytes(number: i64) -> [u8; 4]
    requires { FitsSigned w32 number }
    ensures { result ≡ four_bytes number }
{
    (number as i32).to_be_bytes()
}

/// Puts texts, one behind the other.
fn put_parts<K: Sink>(pieces: &mut Pieces<'_, K>, parts: &[&[u8]]) -> Result<(), IoEnd>
    ensures { Puts K.state pieces.old pieces.new result (flat_map (λ part. part.now) parts.now) }
{
    for part in parts {
        pieces.put(part)?;
    }
    Ok(())
}
