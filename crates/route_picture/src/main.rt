//! Prints the picture of a route as SVG, or within a page of HTML.
//!
//! It is called as `route_picture ARCH NET PLACE ROUTE WIDTH [NAMES | ROUTED --reach L]
//! [--html]`, where WIDTH and L are whole numbers from 1 to 64, and as `gafkelam picture` with the
//! same words. With `--html` a page is printed: a head, the very SVG, and a script. The nets that
//! the lines `net NAME` of NAMES name, as `core` says them, are drawn bold, and the others pale;
//! where a line says a cut, as `bound` does, a band lies over each of its cells. Of
//! ROUTED its routing is drawn, in which a net may have several wires of a cell: it has to be legal
//! at WIDTH within L joins. Where no picture is printed, it says why on standard error.
//!
//! | status | cause |
//! |---|---|
//! | 0 | the picture was printed |
//! | 3 | a file is bad, does not fit the others, passes a limit, names no net, or is not legal |
//! | 4 | the words are not taken |
//! | 5 | a file is not there, or the system refused a read |
//! | 6 | the system refused to take the picture |
//! | 7 | memory ran out |
//! | 8 | the system did not give the program its words |
#![tactic(auto)]

mod blame;
mod cut;
mod drawn;
mod file_texts;
mod given_file;
mod page;
mod said;
mod shown;
mod stop;
mod words;

use crate::drawn::print_picture;
use crate::said::append_stop;
use crate::stop::Stop;
use crate::words::given_words;
use desk_io::{FileDesk, FileShelf};
use std::process::ExitCode;
use std::rt::Files;

// The status where the system does not give the words.
const NO_WORDS: u8 = 8;

// Says why no picture is printed, if there is memory for that and someone to take it.
fn say<R: Files + AllocGlobal + Eprint>(rt: &R, words: &[String], stop: Stop) {
    let mut text = String::new(rt.alloc());
    if append_stop(rt, &mut text, words, stop).is_ok() {
        let _ = eprint!(rt; "{text}");
    }
}

fn main(rt: HostRuntime) -> ExitCode {
    let Ok(words) = given_words(&rt) else {
        return ExitCode::from(NO_WORDS);
    };
    let mut desk = FileDesk::new(&rt);
    let mut shelf = FileShelf::new(&rt);
    match print_picture(rt.alloc(), &mut desk, &mut shelf, &words) {
        Ok(()) => ExitCode::SUCCESS,
        Err(stop) => {
            say(&rt, &words, stop);
            ExitCode::from(stop.status())
        }
    }
}
