//! Files in and out, as traits whose faults are counted.
#![tactic(auto)]

mod block_writer;
mod calls;
mod desk;
mod file_desk;
mod file_shelf;
mod mem_desk;
mod mem_shelf;
mod prints;
mod read;
mod shelf;
mod shelf_faults;
mod table;
mod whole_file;

pub use block_writer::BlockWriter;
pub use desk::{Desk, Failed};
pub use file_desk::FileDesk;
pub use file_shelf::FileShelf;
pub use mem_desk::MemDesk;
pub use mem_shelf::MemShelf;
pub use prints::{Prints, print_both, print_each};
pub use read::{ReadStop, read_file};
pub use shelf::Shelf;
pub use whole_file::{append_text, write_file};
