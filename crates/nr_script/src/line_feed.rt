//! The lines of a script that comes in pieces.
ghost use Rattle.std.specs.Prelude.{◌≡◌, [], ◌++◌, IfOk, OnErr, OnOk};
ghost use Rattle.vs_types.specs.Finds.{Finds};
ghost use Rattle.nr_script.specs.Lines.{Says};
ghost use Rattle.nr_script.specs.Fed.{FeedsLine};
ghost use Rattle.nr_script.specs.inside.Left.{HasNoEnd};

use crate::line::{Line, parse_line};
use memchr::memchr;
use std::alloc::Global;
use std::marker::Model;
use vs_types::{Depth, Memory};

/// A reader of the lines of a script that comes in pieces, cut anywhere. It keeps the bytes of the line that has begun; contracts see
/// them.
#[derive(Debug, Drop)]
pub struct LineFeed {
    begun: Vec<u8>,
}

impl Model for LineFeed {
    ghost use Rattle.std.specs.Prelude.{ℕ, List};
    ghost use Rattle.nr_script.specs.inside.Left.{HasNoEnd};

    ghost Value = { List ℕ };

    ghost view = { λ f. f.begun.items };

    ghost invariant = { λ f. HasNoEnd f.begun.items };
}

/// What a piece makes of the line that has begun.
#[derive(Clone, Copy, Debug, PartialEq, Eq)]
pub enum Fed {
    /// The whole piece is taken, and ends no line.
    More,
    /// So many bytes at the front of the piece end the line, with its LF. This is what it says; `None` where it has no form, or its
    /// request is not well formed at the depth.
    Ended(usize, Option<Line>),
}

impl LineFeed {
    /// A text of which nothing has come yet. It allocates no memory.
    pub fn new(alloc: Global) -> LineFeed
        ensures { result ≡ [] }
    {
        LineFeed {
            begun: Vec::new(alloc),
        }
    }

    /// Takes bytes at the front of the next piece: up to the end of a line, or all. It allocates memory for a line that goes over
    /// the end of a piece.
    ///
    /// # Errors
    ///
    /// `Memory` where a growth of memory was refused; nothing is taken then.
    pub fn feed(&mut self, depth: Depth, piece: &[u8]) -> Result<Fed, Memory>
        ensures fed { IfOk result (FeedsLine depth self.old piece.now self.new) }
        ensures err { OnErr result (self.new ≡ self.old) }
    {
        self.ends_no_line();
        match memchr(b'\n', piece) {
            None => {
                self.begun.extend_from_slice(piece)?;
                Ok(Fed::More)
            }
            Some(index) => {
                let said = self.end_line(depth, &piece[..index])?;
                Ok(Fed::Ended(index + 1, said))
            }
        }
    }

    /// Does nothing: the line that has begun has no end.
    fn ends_no_line(&self)
        ensures { HasNoEnd self.now }
    {
        let _begun = &self.begun;
    }

    /// What the line says that these bytes end.
    fn end_line(&mut self, depth: Depth, rest: &[u8]) -> Result<Option<Line>, Memory>
        requires { HasNoEnd rest.now }
        ensures says { IfOk result (Finds (Says depth (self.old ++ rest.now))) }
        ensures next { OnOk result (self.new ≡ []) }
        ensures err { OnErr result (self.new ≡ self.old) }
    {
        if self.begun.is_empty() {
            return Ok(parse_line(depth, rest));
        }
        self.begun.extend_from_slice(rest)?;
        let said = parse_line(depth, self.begun.as_slice());
        self.begun.clear();
        Ok(said)
    }

    /// What the last line says, where no piece comes any more; `None` as of `feed`.
    pub fn end(self, depth: Depth) -> Option<Line>
        ensures { Finds (Says depth self) result }
    {
        parse_line(depth, self.begun.as_slice())
    }
}
