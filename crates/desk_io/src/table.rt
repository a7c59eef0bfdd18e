//! Tables of named files, of which the first with a name counts.
ghost use Rattle.std.specs.Prelude.{◌≡◌, ◌<◌, [], true, IfOk, IfNone, IfSome, OnErr, OnOk, Some, None, length, vec_len};
ghost use Rattle.std.specs.FinMap as map;
ghost use Rattle.desk_io.specs.Table.{IsAppended, IsFirst, bytes_at, entries_of, name_at, table_map};

use std::alloc::{AllocError, Global};

/// The first position of a name.
pub(crate) fn position_of(files: &[(String, Vec<u8>)], name: &str) -> Option<usize>
    ensures none { IfNone result (map.get (table_map files.now) name.now ≡ None) }
    ensures inside { IfSome result (λ p. p < length files.now) }
    ensures name { IfSome result (λ p. name_at files.now (Some p) ≡ Some name.now) }
    ensures first { IfSome result (λ p. IsFirst files.now (Some p)) }
    ensures bytes { IfSome result
        (λ p. bytes_at files.now (Some p) ≡ map.get (table_map files.now) name.now) }
    ensures there { IfSome result (λ p. map.contains_key (table_map files.now) name.now ≡ true) }
{
    for (i, file) in files.iter().enumerate() {
        if name == file.0.as_str() {
            return Some(i);
        }
    }
    None
}

/// Makes a file empty, or adds an empty one, and gives its position.
pub(crate) fn empty_file(
    alloc: Global,
    files: &mut Vec<(String, Vec<u8>)>,
    name: &str,
) -> Result<usize, AllocError>
    ensures ok { IfOk result (λ p. (p < vec_len files.new)
        × (table_map files.new.items ≡ map.insert (table_map files.old.items) name.now [])
        × (name_at files.new.items (Some p) ≡ Some name.now) × IsFirst files.new.items (Some p)) }
    ensures err { OnErr result (entries_of files.new.items ≡ entries_of files.old.items) }
{
    match position_of(files, name) {
        Some(p) => {
            files[p].1.clear();
            Ok(p)
        }
        None => {
            let p = files.len();
            files.push((String::from_str(alloc, name)?, Vec::new(alloc)))?;
            Ok(p)
        }
    }
}

/// Adds a piece to the file at a position.
pub(crate) fn append_at(
    files: &mut Vec<(String, Vec<u8>)>,
    at: usize,
    piece: &[u8],
) -> Result<(), AllocError>
    requires inside { at < vec_len files.old }
    requires first { IsFirst files.old.items (Some at) }
    ensures ok { OnOk result (IsAppended files.old.items at piece.now files.new.items) }
    ensures err { OnErr result (entries_of files.new.items ≡ entries_of files.old.items) }
    ensures name { name_at files.new.items (Some at) ≡ name_at files.old.items (Some at) }
    ensures first { IsFirst files.new.items (Some at) }
    ensures len { vec_len files.new ≡ vec_len files.old }
{
    let Ok(()) = files[at].1.extend_from_slice(piece) else {
        return Err(AllocError);
    };
    Ok(())
}
