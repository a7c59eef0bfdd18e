//! A whole text that is written through a block, and a whole file.
ghost use Rattle.std.specs.Prelude.{◌≡◌, true, IsOk, OnErr, OnOk};
ghost use Rattle.desk_io.specs.ShelfState.{FailsToAppend, after_append};
ghost use Rattle.desk_io.specs.WholeFile.{FailsToWrite, after_writing};

use crate::block_writer::BlockWriter;
use crate::desk::Failed;
use crate::prints::Prints;
use crate::shelf::Shelf;

/// Appends the whole text of an item to the created file, in blocks. It takes no memory of its own.
///
/// It fails only where the shelf does, and then a front part of the text was appended.
pub fn append_text<T, P: Prints<T>, S: Shelf>(
    printer: &P,
    shelf: &mut S,
    item: &T,
) -> Result<(), Failed>
    requires { (S.state shelf.old).is_created ≡ true }
    ensures ok { OnOk result
        (S.state shelf.new ≡ after_append (S.state shelf.old) (P.text item.now)) }
    ensures err { OnErr result
        (FailsToAppend (S.state shelf.old) (P.text item.now) (S.state shelf.new)) }
    ensures known { IsOk result → P.known item.now }
{
    let mut writer = BlockWriter::new();
    printer.print(&mut writer, shelf, item)?;
    let Ok(()) = writer.flush(shelf) else {
        return Err(Failed);
    };
    Ok(())
}

/// Writes a file with the text of an item, and no other file: creates it, appends the text in
/// blocks and finishes it. It takes no memory of its own.
///
/// It fails only where the shelf does. Then the file was not created, or holds a front part of
/// the text.
pub fn write_file<T, P: Prints<T>, S: Shelf>(
    printer: &P,
    shelf: &mut S,
    name: &str,
    item: &T,
) -> Result<(), Failed>
    ensures ok { OnOk result
        (S.state shelf.new ≡ after_writing (S.state shelf.old) name.now (P.text item.now)) }
    ensures err { OnErr result
        (FailsToWrite (S.state shelf.old) name.now (P.text item.now) (S.state shelf.new)) }
    ensures known { IsOk result → P.known item.now }
{
    shelf.create(name)?;
    let Ok(()) = append_text(printer, shelf, item) else {
        return Err(Failed);
    };
    let Ok(()) = shelf.finish() else {
        return Err(Failed);
    };
    Ok(())
}
