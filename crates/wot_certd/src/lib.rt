//! The certificate directory: the trait `Shelf`, a directory in memory and one in the file system, and the places of
//! entries.
#![tactic(auto)]

mod changing;
mod folder;
mod memory;
mod name;
mod shelf;
mod writing;

pub use folder::FolderShelf;
pub use memory::MemoryShelf;
pub use name::{fpr_of, name_beside, name_of};
pub use shelf::{Given, Shelf, ShelfFault};
