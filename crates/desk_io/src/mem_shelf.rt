//! A shelf in memory, which fails at chosen calls.
ghost use Rattle.std.specs.Prelude.{◌≡◌, ◌↔◌, true, option_map, IsErr, OnOk, OnErr};
ghost use Rattle.std.specs.FinMap as map;
ghost use Rattle.desk_io.specs.Files.{next_call};
ghost use Rattle.desk_io.specs.Memory.{IsNextListed, new_shelf, shelf_state};
ghost use Rattle.desk_io.specs.ShelfState.{after_create, after_append, after_finish, after_say};
ghost use Rattle.desk_io.specs.ShelfState.{FailsToAppend, FailsToCreate, FailsToFinish, FailsToSay};

use crate::calls::Calls;
use crate::desk::Failed;
use crate::shelf::Shelf;
use crate::shelf_faults::ShelfFaults;
use crate::table::{append_at, empty_file, position_of};
use std::alloc::Global;
use std::marker::Model;

/// Files and said bytes in memory. Calls are counted from 1, and those that are listed fail.
#[derive(Drop)]
pub struct MemShelf {
    alloc: Global,
    files: Vec<(String, Vec<u8>)>,
    said: Vec<u8>,
    created: Option<usize>,
    faults: ShelfFaults,
    calls: Calls,
}

impl Model for MemShelf {
    ghost use Rattle.std.specs.Prelude.{ℕ, ◌<◌, length};
    ghost use Rattle.std.specs.Option.{ForSome};
    ghost use Rattle.desk_io.specs.Memory.{MemShelfView, mem_shelf_code};

    ghost Value = { MemShelfView };

    ghost coded = { mem_shelf_code };

    ghost use Rattle.desk_io.specs.Table.{IsFirst, name_at, table_map};

    ghost view = { λ s. record {
      files = table_map s.files.items;
      said = s.said.items;
      created = name_at s.files.items s.created;
      faults = s.faults.count;
      say_failed = s.faults.in_say;
      calls = s.calls.count;
      fail = s.calls.fail.items;
    } };

    ghost invariant = { λ s.
        (ForSome s.created (λ p. p < length s.files.items)) × IsFirst s.files.items s.created };
}

impl MemShelf {
    /// An empty shelf. The calls whose numbers are in `fail` will fail, where the first call is 1;
    /// so will a call for which there is no memory.
    pub fn new(alloc: Global, fail: Vec<u64>) -> MemShelf
        ensures { result ≡ new_shelf fail.items }
    {
        MemShelf {
            alloc,
            files: Vec::new(alloc),
            said: Vec::new(alloc),
            created: None,
            faults: ShelfFaults::new(),
            calls: Calls::new(fail),
        }
    }

    /// The bytes of a file, where there is one of this name.
    pub fn file(&self, name: &str) -> Option<&[u8]>
        ensures { option_map (λ b. b.now) result ≡ map.get self.now.files name.now }
    {
        match position_of(&self.files, name) {
            Some(p) => Some(self.files[p].1.as_slice()),
            None => None,
        }
    }

    /// The bytes of a file, where there is one of this name, out of the shelf and not copied.
    pub fn into_file(self, name: &str) -> Option<Vec<u8>>
        ensures { option_map (λ b. b.items) result ≡ map.get self.files name.now }
    {
        let mut files = self.files;
        match position_of(&files, name) {
            Some(p) => Some(files.swap_remove(p).1),
            None => None,
        }
    }

    /// The bytes said.
    pub fn said(&self) -> &[u8]
        ensures { result.now ≡ self.now.said }
    {
        &self.said
    }
}

impl Shelf for MemShelf {
    ghost state = { shelf_state };

    fn create(&mut self, name: &str) -> Result<(), Failed>
        ensures ok { OnOk result
            (shelf_state self.new ≡ after_create (shelf_state self.old) name.now) }
        ensures err { OnErr result
            (FailsToCreate (shelf_state self.old) name.now (shelf_state self.new)) }
        ensures listed { IsNextListed self.old.calls self.old.fail → IsErr result }
        ensures calls { self.new.calls ≡ next_call self.old.calls }
        ensures fail { self.new.fail ≡ self.old.fail }
    {
        self.created = None;
        if self.calls.next_fails() {
            return Err(self.faults.add(false));
        }
        let Ok(at) = empty_file(self.alloc, &mut self.files, name) else {
            return Err(self.faults.add(false));
        };
        self.created = Some(at);
        Ok(())
    }

    fn append(&mut self, piece: &[u8]) -> Result<(), Failed>
        requires { (shelf_state self.old).is_created ≡ true }
        ensures ok { OnOk result
            (shelf_state self.new ≡ after_append (shelf_state self.old) piece.now) }
        ensures err { OnErr result
            (FailsToAppend (shelf_state self.old) piece.now (shelf_state self.new)) }
        ensures listed { IsNextListed self.old.calls self.old.fail → IsErr result }
        ensures calls { self.new.calls ≡ next_call self.old.calls }
        ensures fail { self.new.fail ≡ self.old.fail }
    {
        let Some(at) = self.created else {
            unreachable!()
        };
        if self.calls.next_fails() {
            return Err(self.faults.add(false));
        }
        let Ok(()) = append_at(&mut self.files, at, piece) else {
            return Err(self.faults.add(false));
        };
        Ok(())
    }

    fn finish(&mut self) -> Result<(), Failed>
        requires { (shelf_state self.old).is_created ≡ true }
        ensures ok { OnOk result (shelf_state self.new ≡ after_finish (shelf_state self.old)) }
        ensures err { OnErr result (FailsToFinish (shelf_state self.old) (shelf_state self.new)) }
        ensures exact { IsErr result ↔ IsNextListed self.old.calls self.old.fail }
        ensures calls { self.new.calls ≡ next_call self.old.calls }
        ensures fail { self.new.fail ≡ self.old.fail }
    {
        self.created = None;
        if self.calls.next_fails() {
            return Err(self.faults.add(false));
        }
        Ok(())
    }

    fn say(&mut self, piece: &[u8]) -> Result<(), Failed>
        ensures ok { OnOk result
            (shelf_state self.new ≡ after_say (shelf_state self.old) piece.now) }
        ensures err { OnErr result
            (FailsToSay (shelf_state self.old) piece.now (shelf_state self.new)) }
        ensures listed { IsNextListed self.old.calls self.old.fail → IsErr result }
        ensures calls { self.new.calls ≡ next_call self.old.calls }
        ensures fail { self.new.fail ≡ self.old.fail }
    {
        if self.calls.next_fails() {
            return Err(self.faults.add(true));
        }
        let Ok(()) = self.said.extend_from_slice(piece) else {
            return Err(self.faults.add(true));
        };
        Ok(())
    }
}
