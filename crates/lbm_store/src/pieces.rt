//! Bytes for a sink, gathered into pieces.
ghost use Rattle.std.specs.Prelude.{◌≡◌, ◌+◌, ◌<◌, ◌++◌, [], length};
ghost use Rattle.lbm_store.specs.Outside.{Writes};

use crate::{IoEnd, Sink};

/// The length of a piece.
const PIECE: usize = 4096;

/// Gathers bytes into pieces of exactly 4,096 bytes, and a shorter last one.
///
/// What is put is either in the sink or held back, and `end` hands on what is held back. It takes no
/// memory of its own.
#[derive(Drop)]
pub struct Pieces<'a, K> {
    out: &'a mut K,
    held: [u8; 4096],
    len: usize,
    ghost has_room: { len < 4096 },
}

impl<'a, K: Sink> Pieces<'a, K> {
    ghost use Rattle.lbm_store.specs.Pieces.{Puts, Ends, held_bytes, loan_of, sink};

    /// Holds nothing back yet.
    pub fn new(out: &'a mut K) -> Pieces<'a, K>
        ensures sink { sink K.state result ≡ K.state out.old }
        ensures held { held_bytes result ≡ [] }
        ensures loan { loan_of result ≡ out.entry.ghost_name }
    {
        Pieces {
            out,
            held: [0; 4096],
            len: 0,
        }
    }

    /// Adds bytes. Each piece that they fill goes to the sink.
    ///
    /// After an error the sink has got a front of all that was put.
    pub fn put(&mut self, bytes: &[u8]) -> Result<(), IoEnd>
        ensures { Puts K.state self.old self.new result bytes.now }
    {
        let mut rest = bytes;
        while rest.len() >= PIECE - self.len {
            let (front, back) = rest.split_at(PIECE - self.len);
            self.fill(front)?;
            rest = back;
        }
        self.hold(rest);
        Ok(())
    }

    /// Fills the piece, and hands it on.
    fn fill(&mut self, bytes: &[u8]) -> Result<(), IoEnd>
        requires { self.old.len + length bytes.now ≡ PIECE }
        ensures piece { length (held_bytes self.old ++ bytes.now) ≡ PIECE }
        ensures writes { Writes (sink K.state self.old) (sink K.state self.new)
            result (held_bytes self.old ++ bytes.now) }
        ensures held { held_bytes self.new ≡ [] }
        ensures loan { loan_of self.new ≡ loan_of self.old }
    {
        self.held[self.len..].copy_from_slice(bytes);
        self.len = 0;
        self.out.write(&self.held)
    }

    /// Holds bytes back that do not fill the piece.
    fn hold(&mut self, bytes: &[u8])
        requires { self.old.len + length bytes.now < PIECE }
        ensures sink { sink K.state self.new ≡ sink K.state self.old }
        ensures held { held_bytes self.new ≡ held_bytes self.old ++ bytes.now }
        ensures loan { loan_of self.new ≡ loan_of self.old }
    {
        let end = self.len + bytes.len();
        self.held[self.len..end].copy_from_slice(bytes);
        self.len = end;
    }

    /// Hands on what is held back. After an error the sink has got a front of all that was put.
    pub fn end(self) -> Result<(), IoEnd>
        ensures { Ends K.state self.entry self.exit.0.now result }
    {
        let Pieces { out, held, len } = self;
        hand_on(out, &held[..len])
    }
}

/// Writes a piece, if there is anything in it.
fn hand_on<K: Sink>(out: &mut K, piece: &[u8]) -> Result<(), IoEnd>
    ensures { Writes (K.state out.old) (K.state out.new) result piece.now }
{
    if piece.is_empty() {
        return Ok(());
    }
    out.write(piece)
}
