//! Goes through rows, which are data of the folder that the program runs in: `problems` prints what
//! comes of problems, `searches` what searches of clauses answer, and `cases` runs the router.
#![tactic(auto)]

mod cases;
mod problems;
mod questions;
mod searches;
mod stop;
mod text;

use crate::cases::print_cases;
use crate::problems::print_problems;
use crate::searches::print_searches;
use crate::stop::RowsError;
use desk_io::FileDesk;

fn main(rt: HostRuntime) -> Result<(), RowsError> {
    let mut desk = FileDesk::new(&rt);
    print_problems(&rt, rt.alloc(), &mut desk)?;
    print_searches(&rt, rt.alloc(), &mut desk)?;
    print_cases(&rt, rt.alloc(), &mut desk)
}
