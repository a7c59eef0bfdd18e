//! What long work says of itself while it goes on, on standard error.

use desk_io::{Failed, Shelf};
use run_placed::Progress;
use std::rt::Clock;
use std::time::Instant;

/// Where the next byte stands in a line of a log: in the id, right behind it, or further on.
#[derive(Clone, Copy)]
enum Place {
    Id,
    Second,
    Rest,
}

/// The lines of a log so far: how many add a clause, and whether one adds the empty clause.
#[derive(Clone, Copy)]
struct LogCount {
    place: Place,
    clauses: u64,
    refuted: bool,
}

impl LogCount {
    fn none() -> LogCount {
        LogCount {
            place: Place::Id,
            clauses: 0,
            refuted: false,
        }
    }

    /// Takes a piece of the log. Behind the id stands the letter d in a deletion, and a 0 where the
    /// clause is empty: no literal begins with one.
    fn take(&mut self, piece: &[u8]) {
        for byte in piece {
            self.take_byte(*byte);
        }
    }

    fn take_byte(&mut self, byte: u8) {
        match self.place {
            Place::Id => {
                if byte == b' ' {
                    self.place = Place::Second;
                }
            }
            Place::Second => {
                self.place = Place::Rest;
                if byte != b'd' {
                    self.clauses = self.clauses.saturating_add(1);
                }
                if byte == b'0' {
                    self.refuted = true;
                }
            }
            Place::Rest => {
                if byte == b'\n' {
                    self.place = Place::Id;
                }
            }
        }
    }
}

/// What a file is for, by the end of its name.
#[derive(Clone, Copy)]
enum Role {
    Clauses,
    Log,
    Route,
    Other,
}

fn role_of(name: &str) -> Role {
    if name.ends_with(".cnf") {
        return Role::Clauses;
    }
    if name.ends_with(".lrat") {
        return Role::Log;
    }
    if name.ends_with(".route") {
        return Role::Route;
    }
    Role::Other
}

/// Says lines on standard error: which file is begun or done, and how long it took. It keeps quiet
/// where the system tells no time, or memory is short.
#[derive(Drop)]
struct Teller<'a, R> {
    rt: &'a R,
    /// When the work began, or the last width was done.
    since: Option<Instant>,
    name: Option<String>,
    role: Role,
    log: LogCount,
}

impl<'a, R: AllocGlobal + Clock + Eprint> Teller<'a, R> {
    fn begin(&mut self, name: &str) {
        self.role = role_of(name);
        self.log = LogCount::none();
        self.name = String::from_str(self.rt.alloc(), name).ok();
        if let Role::Clauses = self.role {
            self.tell("begun");
        }
    }

    fn take(&mut self, piece: &[u8]) {
        if let Role::Log = self.role {
            self.log.take(piece);
        }
    }

    fn finish(&mut self) {
        match self.role {
            Role::Log => {
                if self.log.refuted {
                    self.tell("refuted");
                } else {
                    self.tell("left open");
                }
                self.since = Instant::now(self.rt).ok();
            }
            Role::Route => self.tell("routed"),
            _ => {}
        }
    }

    /// The seconds since then, and their tenths.
    fn taken(&self) -> Option<(u64, u32)> {
        let Some(since) = &self.since else {
            return None;
        };
        let Ok(taken) = since.elapsed(self.rt) else {
            return None;
        };
        Some((taken.as_secs(), taken.subsec_millis() / 100))
    }

    fn tell_refuted(&mut self, width: u32) {
        if let Some((seconds, tenths)) = self.taken() {
            let _ = eprint!(self.rt; "width {width}: refuted over cells, {seconds}.{tenths} s\n");
        }
        self.since = Instant::now(self.rt).ok();
    }

    fn tell_unfound(&mut self, width: u32, rounds: u32) {
        if let Some((seconds, tenths)) = self.taken() {
            let _ = eprint!(self.rt;
                "width {width}: no route in {rounds} rounds, {seconds}.{tenths} s\n"
            );
        }
        self.since = Instant::now(self.rt).ok();
    }

    fn tell(&self, what: &str) {
        let (Some((seconds, tenths)), Some(name)) = (self.taken(), &self.name) else {
            return;
        };
        let clauses = self.log.clauses;
        let _ = match self.role {
            Role::Log => {
                eprint!(self.rt; "{name}: {what}, {clauses} clauses, {seconds}.{tenths} s\n")
            }
            _ => eprint!(self.rt; "{name}: {what}, {seconds}.{tenths} s\n"),
        };
    }
}

/// A shelf that writes what the shelf in it writes and fails where that fails; and that says on
/// standard error, where it is to, which width's files are begun or done, and which widths have no
/// route.
#[derive(Drop)]
pub struct ProgressShelf<'a, R, S> {
    shelf: S,
    teller: Option<Teller<'a, R>>,
}

impl<'a, R: AllocGlobal + Clock + Eprint, S: Shelf> ProgressShelf<'a, R, S> {
    pub fn new(rt: &'a R, shelf: S, tells: bool) -> ProgressShelf<'a, R, S> {
        let teller = if tells {
            Some(Teller {
                rt,
                since: Instant::now(rt).ok(),
                name: None,
                role: Role::Other,
                log: LogCount::none(),
            })
        } else {
            None
        };
        ProgressShelf { shelf, teller }
    }

    /// The shelf in it.
    pub fn shelf(&self) -> &S {
        &self.shelf
    }
}

impl<'a, R: AllocGlobal + Clock + Eprint, S: Shelf> Shelf for ProgressShelf<'a, R, S> {
    ghost state = { λ t. S.state t.shelf };

    fn create(&mut self, name: &str) -> Result<(), Failed> {
        if let Some(teller) = &mut self.teller {
            teller.begin(name);
        }
        self.shelf.create(name)
    }

    fn append(&mut self, piece: &[u8]) -> Result<(), Failed> {
        if let Some(teller) = &mut self.teller {
            teller.take(piece);
        }
        self.shelf.append(piece)
    }

    fn finish(&mut self) -> Result<(), Failed> {
        let finished = self.shelf.finish();
        if let (Ok(()), Some(teller)) = (&finished, &mut self.teller) {
            teller.finish();
        }
        finished
    }

    fn say(&mut self, piece: &[u8]) -> Result<(), Failed> {
        self.shelf.say(piece)
    }
}

impl<'a, R: AllocGlobal + Clock + Eprint, S: Shelf> Progress for ProgressShelf<'a, R, S> {
    fn told_refuted(&mut self, width: u32) {
        if let Some(teller) = &mut self.teller {
            teller.tell_refuted(width);
        }
    }

    fn told_unfound(&mut self, width: u32, rounds: u32) {
        if let Some(teller) = &mut self.teller {
            teller.tell_unfound(width, rounds);
        }
    }
}
