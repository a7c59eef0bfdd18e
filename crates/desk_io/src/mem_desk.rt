//! A desk in memory, which fails at chosen calls.
ghost use Rattle.std.specs.Prelude.{◌≡◌, ◌<◌, ◌≤◌, ◌↔◌, ◌⊎◌, true, None, min, length, take, IfOk, IsErr, OnErr, OnOk};
ghost use Rattle.std.specs.FinMap as map;
ghost use Rattle.desk_io.specs.DeskState.{AreNext, FailsToRead, FailsToStart, after_read, after_start};
ghost use Rattle.desk_io.specs.Files.{IsThere, RisesByOne, next_call};
ghost use Rattle.desk_io.specs.Memory.{IsNextListed, desk_state, new_desk};
ghost use Rattle.desk_io.specs.Table.{table_map};

use crate::calls::Calls;
use crate::desk::{Desk, Failed};
use crate::table::position_of;
use std::alloc::Global;
use std::marker::Model;

// How often the desk has failed, and the position of the file that the last time was on, where
// there is one.
#[derive(Clone, Copy)]
struct Faults {
    count: u64,
    file: Option<usize>,
}

impl Faults {
    // Counts one more.
    fn add(&mut self, file: Option<usize>) -> Failed
        ensures risen { RisesByOne self.old.count self.new.count }
        ensures file { self.new.file ≡ file }
    {
        self.count = self.count.saturating_add(1);
        self.file = file;
        Failed
    }
}

/// Files in memory, of which the first with a name counts. Calls are counted from 1, and those
/// that are listed fail.
#[derive(Drop)]
pub struct MemDesk {
    files: Vec<(String, Vec<u8>)>,
    started: Option<usize>,
    at: usize,
    faults: Faults,
    calls: Calls,
}

impl Model for MemDesk {
    ghost use Rattle.desk_io.specs.Memory.{MemDeskView, mem_desk_code};

    ghost Value = { MemDeskView };

    ghost coded = { mem_desk_code };

    ghost use Rattle.desk_io.specs.Table.{IsWithin, left_at, name_at, table_map};

    ghost view = { λ d. record {
      files = table_map d.files.items;
      started = name_at d.files.items d.started;
      left = left_at d.files.items d.started d.at;
      faults = d.faults.count;
      fault_name = name_at d.files.items d.faults.file;
      calls = d.calls.count;
      fail = d.calls.fail.items;
    } };

    ghost invariant = { λ d. IsWithin d.files.items d.started d.at };
}

impl MemDesk {
    /// A desk with these files. The calls whose numbers are in `fail` will fail, where the first
    /// call is 1; so will a start of a name that is not there, and no other call.
    pub fn new(_alloc: Global, files: Vec<(String, Vec<u8>)>, fail: Vec<u64>) -> MemDesk
        ensures { result ≡ new_desk (table_map files.items) fail.items }
    {
        MemDesk {
            files,
            started: None,
            at: 0,
            faults: Faults {
                count: 0,
                file: None,
            },
            calls: Calls::new(fail),
        }
    }
}

impl Desk for MemDesk {
    ghost state = { desk_state };

    fn start(&mut self, name: &str) -> Result<(), Failed>
        ensures ok { OnOk result
            (desk_state self.new ≡ after_start (desk_state self.old) name.now) }
        ensures there { OnOk result (IsThere (desk_state self.old).files name.now) }
        ensures err { OnErr result
            (FailsToStart (desk_state self.old) name.now (desk_state self.new)) }
        ensures exact { IsErr result ↔
            (IsNextListed self.old.calls self.old.fail ⊎ (map.get self.old.files name.now ≡ None)) }
        ensures calls { self.new.calls ≡ next_call self.old.calls }
        ensures fail { self.new.fail ≡ self.old.fail }
    {
        self.started = None;
        let fails = self.calls.next_fails();
        let Some(place) = position_of(&self.files, name) else {
            return Err(self.faults.add(None));
        };
        if fails {
            return Err(self.faults.add(Some(place)));
        }
        self.started = Some(place);
        self.at = 0;
        Ok(())
    }

    fn read(&mut self, buf: &mut [u8]) -> Result<usize, Failed>
        requires started { (desk_state self.old).is_started ≡ true }
        requires room { 0 < length buf.old }
        ensures bound { IfOk result (λ n. n ≤ length buf.old) }
        ensures ok { IfOk result (λ n. desk_state self.new ≡ after_read (desk_state self.old) n) }
        ensures bytes { IfOk result (λ n. AreNext n (desk_state self.old).left buf.new) }
        ensures err { OnErr result (FailsToRead (desk_state self.old) (desk_state self.new)) }
        ensures exact { IsErr result ↔ IsNextListed self.old.calls self.old.fail }
        ensures calls { self.new.calls ≡ next_call self.old.calls }
        ensures fail { self.new.fail ≡ self.old.fail }
    {
        let Some(place) = self.started else {
            unreachable!()
        };
        if self.calls.next_fails() {
            return Err(self.faults.add(Some(place)));
        }
        let rest = &self.files[place].1[self.at..];
        let n = copy_front(rest, buf);
        self.at += n;
        Ok(n)
    }
}

// Copies as much of the front as there is room for, and says how much.
fn copy_front(rest: &[u8], buf: &mut [u8]) -> usize
    ensures count { result ≡ min (length rest.now) (length buf.old) }
    ensures bytes { take result buf.new ≡ take result rest.now }
{
    let n = rest.len().min(buf.len());
    buf[..n].copy_from_slice(&rest[..n]);
    n
}
