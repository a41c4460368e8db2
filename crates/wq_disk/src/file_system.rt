//! The calls of the system for one path. All else of a disk is proved for every system that meets these clauses.
ghost use Rattle.std.specs.Prelude.{◌≡◌, ◌<◌, ◌≤◌, ◌++◌, [], length, take, IfErr, IfOk};

use crate::asked::{AskedPath, Entered};
use crate::facts::FileFacts;
use std::env;
use std::fs::Files;
use std::io::{self, Read};
use std::os::unix::fs::MetadataExt;

/// A system that answers for one path at a time.
pub trait FileSystem {
    ghost use Rattle.std.specs.Prelude.{ℕ, List};
    ghost use Rattle.std.specs.declared.io.Error.{Error};
    ghost use Rattle.wq_disk.specs.declared.facts.FileFacts.{FileFacts};

    /// An open directory.
    type Directory: Drop;

    // The system gave this for the file of a path.
    ghost gave: { Self → List ℕ → FileFacts → Type 0 };

    // A call for a path failed with this error.
    ghost missed: { Self → List ℕ → Error → Type 0 };

    // A directory that was opened at a path gave this text so far.
    ghost reads: { Self → List ℕ → Self.Directory → List ℕ → Type 0 };

    // The directory of a path gave this text, and nothing after it.
    ghost holds: { Self → List ℕ → List ℕ → Type 0 };

    /// What the system gives for the file of a path. A link is not followed.
    fn look(&self, asked: &AskedPath<'_>) -> io::Result<FileFacts>
        ensures gave { IfOk result (gave self.now asked.now.path) }
        ensures missed { IfErr result (missed self.now asked.now.path) };

    /// Opens the directory of a path. If a path ends in a slash, a link there is followed, and else it is not.
    fn open(&self, asked: &AskedPath<'_>) -> io::Result<Self::Directory>
        ensures opened { IfOk result (λ directory.
            reads self.now asked.now.path directory []) }
        ensures missed { IfErr result (missed self.now asked.now.path) };

    /// Reads the next bytes of a directory's names, each of which ends in byte 0. It reads none at the end.
    fn read(&self, directory: &mut Self::Directory, bytes: &mut [u8]) -> io::Result<usize>
        requires room { 0 < length bytes.old }
        ensures room { length bytes.new ≡ length bytes.old }
        ensures count { IfOk result (λ count. count ≤ length bytes.new) }
        ensures more { IfOk result (λ count. (path text : List ℕ)
            → reads self.now path directory.old text
            → reads self.now path directory.new (text ++ take count bytes.new)) }
        ensures end { IfOk result (λ count. count ≡ 0 → (path text : List ℕ)
            → reads self.now path directory.old text → holds self.now path text) }
        ensures missed { IfErr result (λ error. (path text : List ℕ)
            → reads self.now path directory.old text → missed self.now path error) }
        ensures kept { IfErr result (λ error. (path text : List ℕ)
            → reads self.now path directory.old text → reads self.now path directory.new text) };

    /// The number of the device of a path. A link is followed.
    fn device(&self, path: &str) -> io::Result<u64>;

    /// Makes a root the working directory of the process.
    fn enter(&self, entered: &Entered) -> io::Result<()>;

    /// Makes `/` the working directory of the process.
    fn leave(&self, entered: &Entered) -> io::Result<()>;
}

// The machine. The library's calls have no contract that speaks of a path, of a time or of a directory's names, so here
// each relation holds of everything: each body is one call, at the path that it got.
impl FileSystem for HostRuntime {
    ghost use Rattle.std.specs.Prelude.{⊤};

    type Directory = <HostRuntime as Files>::Dir;

    ghost gave = { λ _ _ _. ⊤ };

    ghost missed = { λ _ _ _. ⊤ };

    ghost reads = { λ _ _ _ _. ⊤ };

    ghost holds = { λ _ _ _. ⊤ };

    fn look(&self, asked: &AskedPath<'_>) -> io::Result<FileFacts> {
        let metadata = self.symlink_metadata(asked.from_here())?;
        let (seconds, nanoseconds) = (metadata.mtime(), metadata.mtime_nsec());
        Ok(FileFacts {
            metadata,
            seconds,
            nanoseconds,
        })
    }

    fn open(&self, asked: &AskedPath<'_>) -> io::Result<Self::Directory> {
        self.open_dir(asked.from_here())
    }

    fn read(&self, directory: &mut Self::Directory, bytes: &mut [u8]) -> io::Result<usize> {
        directory.read(bytes)
    }

    fn device(&self, path: &str) -> io::Result<u64> {
        Ok(self.metadata(path)?.dev())
    }

    fn enter(&self, entered: &Entered) -> io::Result<()> {
        env::set_current_dir(self, entered.root())
    }

    fn leave(&self, _: &Entered) -> io::Result<()> {
        env::set_current_dir(self, "/")
    }
}
