//! A run of the router, and what must come of it.
ghost use Rattle.std.specs.Prelude.{◌≡◌, All, IfOk, OnOk, length};
ghost use Rattle.std.specs.Option.{ForSome};
ghost use Rattle.rows.specs.Played.{Plays};
ghost use Rattle.rows.specs.Series.{HasCome, HasCutRun, HasWholeRun};
ghost use Rattle.rows.specs.Wanted.{AreMet};
ghost use Rattle.run_outcome.specs.declared.outcome.Outcome.{Outcome};

use crate::cases::compare::{Wanted, WantedFile, Wants};
use crate::cases::cut::{Cut, compare_same};
use crate::cases::numbers::{number, numbers};
use crate::cases::series::{Failing, Series};
use crate::cases::stop::{LineFault, RowStop};
use crate::cases::texts::{Texts, is_of_text};
use crate::questions::Questions;
use desk_io::{MemDesk, MemShelf};
use router_top::run;
use run_outcome::{Outcome as Answer, Ran};
use std::alloc::Global;

// Where the lines of a text go.
#[derive(Clone, Copy)]
enum Target {
    Nothing,
    File,
    Wanted,
}

/// The words, the files and the calls that fail of a run, the question at which its clock ends
/// searches, and what must come of it; and of the runs like it in which calls fail.
#[derive(Drop)]
pub struct Row {
    alloc: Global,
    words: Vec<String>,
    files: Vec<(String, Vec<u8>)>,
    desk_fails: Vec<u64>,
    shelf_fails: Vec<u64>,
    ends: Option<u64>,
    wants: Wants,
    series: Series,
    target: Target,
}

impl Row {
    /// A run without words over no files, of which nothing is asked.
    pub fn new(alloc: Global) -> Row {
        Row {
            alloc,
            words: Vec::new(alloc),
            files: Vec::new(alloc),
            desk_fails: Vec::new(alloc),
            shelf_fails: Vec::new(alloc),
            ends: None,
            wants: Wants::new(alloc),
            series: Series::new(alloc),
            target: Target::Nothing,
        }
    }

    /// Takes a line of a case.
    pub fn take(&mut self, texts: &Texts, line: &str) -> Result<(), LineFault> {
        if is_of_text(line) {
            return self.take_text(texts, line);
        }
        self.target = Target::Nothing;
        let (word, rest) = line.split_once(' ').unwrap_or((line, ""));
        match word {
            "words" => self.take_words(rest),
            "file" => self.take_file(rest),
            "design" => self.take_design(texts, rest),
            "desk" => Ok(self.desk_fails = numbers(self.alloc, rest)?),
            "shelf" => Ok(self.shelf_fails = numbers(self.alloc, rest)?),
            "ends" => Ok(self.ends = Some(number(rest)?)),
            "comes" => Ok(self.wants.outcome = Some(String::from_str(self.alloc, rest)?)),
            "says" => self.take_lead(rest),
            "silent" => Ok(self.wants.is_silent = true),
            "status" => Ok(self.wants.status = Some(number(rest)?)),
            "writes" => self.take_wanted(Wanted::Whole, rest),
            "begins" => self.take_wanted(Wanted::Begins, rest),
            "holds" => self.take_wanted(Wanted::Holds, rest),
            "counts" => self.take_counted(rest),
            "lacks" => self.take_wanted(Wanted::Lacks, rest),
            "order" => self.series.take_order(self.alloc, rest),
            "each" => self.series.take_failing(rest),
            "meets" => self.series.take_cuts(self.alloc, rest),
            _ => Err(LineFault::NotUnderstood),
        }
    }

    // Takes a line of the text of the last file.
    fn take_text(&mut self, texts: &Texts, line: &str) -> Result<(), LineFault> {
        match self.target {
            Target::Nothing => Err(LineFault::NotUnderstood),
            Target::File => match self.files.last_mut() {
                Some(file) => texts.append_line(&mut file.1, line),
                None => Err(LineFault::NotUnderstood),
            },
            Target::Wanted => match self.wants.files.last_mut() {
                Some(file) => texts.append_line(&mut file.text, line),
                None => Err(LineFault::NotUnderstood),
            },
        }
    }

    // Takes the words of the command.
    fn take_words(&mut self, words: &str) -> Result<(), LineFault> {
        for word in words.split(' ') {
            self.words.push(String::from_str(self.alloc, word)?)?;
        }
        Ok(())
    }

    // Takes a file of the desk.
    fn take_file(&mut self, name: &str) -> Result<(), LineFault> {
        let name = String::from_str(self.alloc, name)?;
        self.files.push((name, Vec::new(self.alloc)))?;
        self.target = Target::File;
        Ok(())
    }

    // Takes the files of the design of this name, which are parts.
    fn take_design(&mut self, texts: &Texts, name: &str) -> Result<(), LineFault> {
        for file in ["arch", "net", "place"] {
            let part = format!(in self.alloc; "&{name}.{file}")?;
            self.take_file(file)?;
            self.take_text(texts, part.as_str())?;
        }
        Ok(())
    }

    // Takes a line that must be said before the report line.
    fn take_lead(&mut self, line: &str) -> Result<(), LineFault> {
        self.wants.lead.extend_from_slice(line.as_bytes())?;
        self.wants.lead.push(b'\n')?;
        Ok(())
    }

    // Takes a file that must come, or must not.
    fn take_wanted(&mut self, how: Wanted, name: &str) -> Result<(), LineFault> {
        self.wants.files.push(WantedFile {
            how,
            name: String::from_str(self.alloc, name)?,
            text: Vec::new(self.alloc),
        })?;
        self.target = Target::Wanted;
        Ok(())
    }

    // Takes a file that must come with its text at so many places.
    fn take_counted(&mut self, rest: &str) -> Result<(), LineFault> {
        let Some((name, count)) = rest.split_once(' ') else {
            return Err(LineFault::NotUnderstood);
        };
        self.take_wanted(Wanted::Counts(number(count)?), name)
    }

    /// Runs, and compares what comes; gives the shelf then.
    pub fn play(&self) -> Result<MemShelf, RowStop>
        ensures { IfOk result (λ shelf. (outcome : Outcome)
            × Plays self.now outcome shelf × AreMet self.now.wants outcome shelf) }
    {
        let (outcome, shelf) = self.run(self.desk_fails.clone()?, self.shelf_fails.clone()?)?;
        self.wants.compare(self.alloc, &outcome, &shelf)?;
        Ok(shelf)
    }

    // Runs over new tables, of which these calls fail.
    fn run(
        &self,
        desk_fails: Vec<u64>,
        shelf_fails: Vec<u64>,
    ) -> Result<(Answer, MemShelf), RowStop>
        ensures { IfOk result (λ came. Plays self.now came.0 came.1) }
    {
        let mut desk = MemDesk::new(self.alloc, self.files.clone()?, desk_fails);
        let mut shelf = MemShelf::new(self.alloc, shelf_fails);
        let mut clock = Questions::until(self.ends);
        let Ran { outcome, .. } = run(self.alloc, &self.words, &mut desk, &mut shelf, &mut clock);
        Ok((outcome, shelf))
    }

    /// Runs with calls that fail, with one number after the other up to the first at which none
    /// does, and compares what comes; gives how many runs met a fault. Without a fault the shelf
    /// was left like this.
    pub fn play_series(&self, whole: &MemShelf) -> Result<u64, RowStop>
        ensures come { OnOk result
            (ForSome self.now.series.failing (λ failing. HasCome self.now whole.now)) }
        ensures count { IfOk result (λ count. count ≡ length self.now.series.cuts.items) }
    {
        let Some(failing) = self.series.failing else {
            if self.series.cuts.is_empty() {
                return Ok(0);
            }
            return Err(RowStop::Lacks("each"));
        };
        self.play_numbers(failing, whole)
    }

    // The same, where it is said which calls fail.
    fn play_numbers(&self, failing: Failing, whole: &MemShelf) -> Result<u64, RowStop>
        ensures come { OnOk result (HasCome self.now whole.now) }
        ensures count { IfOk result (λ count. count ≡ length self.now.series.cuts.items) }
    {
        let count = self.play_cuts(failing, whole)?;
        self.play_last(failing, count.saturating_add(1), whole)?;
        Ok(count)
    }

    // Runs at each number at which a call fails.
    fn play_cuts(&self, failing: Failing, whole: &MemShelf) -> Result<u64, RowStop>
        ensures come { OnOk result
            (All (HasCutRun self.now whole.now) self.now.series.cuts.items) }
        ensures count { IfOk result (λ count. count ≡ length self.now.series.cuts.items) }
    {
        let mut number = 0u64;
        for cut in &self.series.cuts {
            number = number.saturating_add(1);
            self.play_cut(failing, number, cut, whole)?;
        }
        Ok(number)
    }

    // Runs at a number at which a call fails.
    fn play_cut(
        &self,
        failing: Failing,
        number: u64,
        cut: &Cut,
        whole: &MemShelf,
    ) -> Result<(), RowStop>
        ensures { OnOk result (HasCutRun self.now whole.now cut.now) }
    {
        let (desk_fails, shelf_fails) = failing.calls(self.alloc, number)?;
        let (outcome, shelf) = self.run(desk_fails, shelf_fails)?;
        let order = self.series.order.as_slice();
        cut.compare(self.alloc, &self.wants.lead, order, whole, &outcome, &shelf)?;
        Ok(())
    }

    // Runs at the number behind the last call.
    fn play_last(&self, failing: Failing, number: u64, whole: &MemShelf) -> Result<(), RowStop>
        ensures { OnOk result (HasWholeRun self.now whole.now) }
    {
        let (desk_fails, shelf_fails) = failing.calls(self.alloc, number)?;
        let (outcome, last) = self.run(desk_fails, shelf_fails)?;
        self.wants.compare(self.alloc, &outcome, &last)?;
        compare_same(self.alloc, &self.series.order, whole, &last)?;
        Ok(())
    }
}
