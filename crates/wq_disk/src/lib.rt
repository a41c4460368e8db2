//! One directory on disk, as the walk of a tree needs it: its names, in the order in which the walk takes them, and the
//! stats of their files. Another crate walks from directory to directory.
#![tactic(auto)]

mod asked;
mod directory;
mod disk;
mod facts;
mod file_system;
mod names;
mod new_names;
mod part;
mod path;
mod stat;
mod unseen;
mod way;

pub use asked::{AskedPath, Entered};
pub use directory::{Directory, Step};
pub use disk::{Disk, FileDisk};
pub use facts::FileFacts;
pub use file_system::FileSystem;
pub use names::{Block, Names, Place};
pub use part::Part;
pub use path::{TreePath, with_slash};
pub use stat::Stat;
pub use way::Way;
