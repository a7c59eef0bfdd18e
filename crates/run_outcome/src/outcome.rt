//! What a run comes to: its exit status and its report line.
ghost use Rattle.std.specs.Prelude.{◌≡◌, ◌≤◌, ◌+◌, ◌++◌, length, decimal};
ghost use Rattle.arrayvec.specs.ArrayString.{array_string_len};
ghost use Rattle.run_outcome.specs.Report.{report_of, status_of};

use crate::slot::Slot;
use crate::text_file::TextFile;
use arrayvec::ArrayString;
use itoa::Buffer;
use problem_facts::Asymmetry;

/// What keeps a method from saying the routings of a problem at a width.
#[derive(Clone, Copy)]
pub enum Obstacle {
    /// Tracks were to be pinned, and this keeps them from being all alike.
    Pins(Asymmetry),
    /// Tracks were to be kept in order, and this keeps their groups from changing places.
    Order(Asymmetry),
}

/// What a run comes to.
#[derive(Clone, Copy)]
pub enum Outcome {
    /// A legal routing of this width was written.
    Routed {
        width: u32,
    },
    /// No routing of this width is legal.
    Unroutable {
        width: u32,
    },
    /// As many clauses were learned as the budget allows, and the search is still open.
    Undecided {
        width: u32,
        learned: u64,
    },
    /// No routing of the placement has fewer tracks: so many nets cross a cut with so many cells,
    /// and each of them takes a wire in one of these.
    Bound {
        tracks: u32,
        cells: u32,
        nets: u64,
    },
    /// In so many rounds, at most as many as were asked for, no route of the placement was found
    /// with its tracks, whether or not there is one; where several widths were tried, it is the
    /// most rounds that were made at one of them. It says too whether the clock ended the rounds.
    Unfound {
        width: u32,
        rounds: u32,
        stopped: bool,
    },
    /// No routing of the placement has this width: no wires reach a sink of some net, whatever the
    /// other nets have.
    NoWay {
        width: u32,
    },
    /// A legal routing of this width was written, and no routing of the placement has fewer tracks
    /// than so many: a cut asks for as many; or it asks for fewer, and clauses over the cells of a
    /// window are refuted with one track fewer, which was written too.
    Narrowed {
        tracks: u32,
        width: u32,
        cut: u32,
    },
    /// No routing of the placement has fewer tracks, as of a bound, and these are more than were to
    /// be tried.
    Beyond {
        tracks: u32,
        cells: u32,
        nets: u64,
    },
    /// What was asked for was written.
    Done,
    /// The log refutes the formula.
    Accepted,
    /// The log does not refute the formula: its step with this number, counted from 1, is refused
    /// with this cause, from 1 to 10.
    NotAccepted {
        step: u64,
        cause: u32,
    },
    /// The model has no literal of the clause with this number, counted from 1, and one of each
    /// clause before it.
    NotModel {
        clause: u32,
    },
    /// The routed file is a legal routing of the problem.
    LegalRoute,
    /// The routed file is no legal routing: this is its first line with a cause against it, and the
    /// least cause there, from 801 to 808.
    NotLegal {
        line: u64,
        cause: u32,
    },
    /// A file is bad: this is the first bad line, and the least code that holds there.
    InputFault {
        file: TextFile,
        line: u64,
        code: u32,
    },
    /// A count passes its limit, of a file where it is what this holds.
    Limit {
        file: Option<TextFile>,
        code: u32,
        count: u64,
    },
    /// Tracks were to be pinned or to be kept in order, and at this width they are not alike
    /// enough; of a sweep it is the least such width. This keeps them from it.
    NotSymmetric {
        width: u32,
        why: Obstacle,
    },
    /// The words are not taken.
    Usage {
        code: u32,
    },
    /// The desk failed on a file.
    ReadFault {
        file: TextFile,
    },
    /// The shelf failed on what is written here.
    WriteFault {
        slot: Slot,
    },
    /// Memory ran out.
    OutOfMemory,
}

/// Room for the longest line that a run says.
pub const LINE_ROOM: usize = 96;

/// The exit status.
pub fn status(outcome: &Outcome) -> u8
    ensures { result ≡ status_of outcome.now }
{
    match outcome {
        Outcome::Routed { .. }
        | Outcome::Bound { .. }
        | Outcome::Narrowed { .. }
        | Outcome::Done
        | Outcome::Accepted
        | Outcome::LegalRoute => 0,
        Outcome::Unroutable { .. }
        | Outcome::NoWay { .. }
        | Outcome::Beyond { .. }
        | Outcome::NotAccepted { .. }
        | Outcome::NotModel { .. }
        | Outcome::NotLegal { .. } => 1,
        Outcome::Undecided { .. } | Outcome::Unfound { .. } => 2,
        Outcome::InputFault { .. } | Outcome::Limit { .. } | Outcome::NotSymmetric { .. } => 3,
        Outcome::Usage { .. } => 4,
        Outcome::ReadFault { .. } => 5,
        Outcome::WriteFault { .. } => 6,
        Outcome::OutOfMemory => 7,
    }
}

/// The report line, without its newline.
pub fn report(outcome: &Outcome) -> ArrayString<LINE_ROOM>
    ensures line { result.bytes ≡ report_of outcome.now }
    ensures room { array_string_len result ≤ 80 }
{
    let mut line = ArrayString::new();
    match *outcome {
        Outcome::Routed { width } => push_count(&mut line, "routed ", width as u64),
        Outcome::Unroutable { width } => push_count(&mut line, "unroutable ", width as u64),
        Outcome::Undecided { width, learned } => {
            push_count(&mut line, "undecided ", width as u64);
            push_count(&mut line, " after ", learned);
            line.push_str(" learned clauses");
        }
        Outcome::Bound { tracks, .. } => push_count(&mut line, "bound ", tracks as u64),
        Outcome::Unfound { width, rounds, .. } => {
            push_count(&mut line, "undecided ", width as u64);
            push_count(&mut line, " after ", rounds as u64);
            line.push_str(" rounds");
        }
        Outcome::NoWay { width } => push_count(&mut line, "no way ", width as u64),
        Outcome::Narrowed { width, .. } => push_count(&mut line, "routed ", width as u64),
        Outcome::Beyond { tracks, .. } => push_count(&mut line, "bound ", tracks as u64),
        Outcome::Done => line.push_str("done"),
        Outcome::Accepted => line.push_str("accepted"),
        Outcome::NotAccepted { step, cause } => {
            push_count(&mut line, "not accepted: step ", step);
            push_count(&mut line, " cause ", cause as u64);
        }
        Outcome::NotModel { clause } => {
            push_count(&mut line, "not a model: clause ", clause as u64)
        }
        Outcome::LegalRoute => line.push_str("legal"),
        Outcome::NotLegal { line: at, cause } => {
            push_count(&mut line, "not legal: line ", at);
            push_count(&mut line, " cause ", cause as u64);
        }
        Outcome::InputFault {
            file,
            line: at,
            code,
        } => {
            line.push_str("fault: ");
            line.push_str(file.word());
            push_count(&mut line, " line ", at);
            push_count(&mut line, " code ", code as u64);
        }
        Outcome::Limit { code, count, .. } => {
            push_count(&mut line, "limit: code ", code as u64);
            push_count(&mut line, " count ", count);
        }
        Outcome::NotSymmetric { width, .. } => {
            push_count(&mut line, "not symmetric ", width as u64)
        }
        Outcome::Usage { code } => push_count(&mut line, "usage: code ", code as u64),
        Outcome::ReadFault { file } => {
            line.push_str("read fault: ");
            line.push_str(file.word());
        }
        Outcome::WriteFault { slot } => push_count(
            &mut line,
            "write fault: slot ",
            slot.number() as u64,
        ),
        Outcome::OutOfMemory => line.push_str("out of memory"),
    }
    line
}

/// Adds a text and a number behind it.
pub fn push_count(line: &mut ArrayString<LINE_ROOM>, text: &str, count: u64)
    requires { array_string_len line.old + length text.now ≤ 70 }
    ensures bytes { line.new.bytes ≡ line.old.bytes ++ text.now ++ decimal count }
    ensures room { array_string_len line.new ≤ array_string_len line.old + length text.now + 20 }
{
    line.push_str(text);
    line.push_str(Buffer::new().format(count));
}
