//! Files that are opened by their names, of the host or of a test.

ghost use Rattle.std.specs.Prelude.{◌≡◌, IfOk, List, None, Option, ℕ};

use std::fs::{self, File};
use std::io::{self, Read};

/// Opens files by their names.
pub trait FilesByName {
    /// An open file.
    type Opened: Read + Drop;

    /// The bytes of the file of a name, where they are specified.
    ghost file_bytes: { Self → List ℕ → Option (List ℕ) };

    /// Opens the file of this name, to be read from its beginning.
    ///
    /// # Errors
    ///
    /// There is no such file, or it may not be read.
    fn open(&self, name: &str) -> io::Result<Self::Opened>
        ensures { IfOk result (λ file. Self.Opened.remaining file ≡ file_bytes self.now name.now) };

    /// How many bytes the file of this name has, or standard input if none is named; `None` where that isn't known, as of a pipe. Only what
    /// is shown of the progress depends on it.
    fn size(&self, name: Option<&str>) -> Option<u64>;
}

/// The file that is standard input.
const STANDARD_INPUT: &str = "/dev/stdin";

/// The files of the host, of which no contract says what they have.
impl FilesByName for HostRuntime {
    type Opened = File;

    ghost file_bytes = { λ _ _. None };

    fn open(&self, name: &str) -> io::Result<File> {
        File::open(self, name)
    }

    fn size(&self, name: Option<&str>) -> Option<u64> {
        let data = fs::metadata(self, name.unwrap_or(STANDARD_INPUT)).ok()?;
        if data.is_file() {
            Some(data.len())
        } else {
            None
        }
    }
}
