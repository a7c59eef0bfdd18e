//! Texts that are written piece by piece and item by item.
ghost use Rattle.std.specs.Prelude.{◌≡◌, ◌++◌, true, All, IsOk, flat_map};
ghost use Rattle.desk_io.specs.Writing.{Writes};

use crate::block_writer::BlockWriter;
use crate::desk::Failed;
use crate::shelf::Shelf;

/// A way to write an item as a text.
pub trait Prints<T> {
    ghost use Rattle.std.specs.Prelude.{⊤};
    ghost use Rattle.desk_io.specs.Files.{Bytes};

    /// The text of an item.
    ghost text: { T → Bytes };

    /// What is known of an item once it was written.
    ghost known: { T → Type 0 } = { λ _. ⊤ };

    /// Writes the text of an item behind what waits. It fails only where the shelf does.
    fn print<S: Shelf>(
        &self,
        writer: &mut BlockWriter,
        shelf: &mut S,
        item: &T,
    ) -> Result<(), Failed>
        requires { (S.state shelf.old).is_created ≡ true }
        ensures written { Writes (S.state shelf.old) writer.old (text item.now) (S.state shelf.new)
            writer.new result }
        ensures known { IsOk result → known item.now };
}

/// Writes the texts of items, one behind the other. It fails only where the shelf does.
pub fn print_each<T, P: Prints<T>, S: Shelf>(
    printer: &P,
    writer: &mut BlockWriter,
    shelf: &mut S,
    items: &[T],
) -> Result<(), Failed>
    requires { (S.state shelf.old).is_created ≡ true }
    ensures written { Writes (S.state shelf.old) writer.old (flat_map P.text items.now)
        (S.state shelf.new) writer.new result }
    ensures known { IsOk result → All P.known items.now }
{
    for item in items {
        let Ok(()) = printer.print(writer, shelf, item) else {
            return Err(Failed);
        };
    }
    Ok(())
}

/// Writes two texts of an item, the second behind the first. It fails only where the shelf does.
pub fn print_both<T, P: Prints<T>, Q: Prints<T>, S: Shelf>(
    first: &P,
    second: &Q,
    writer: &mut BlockWriter,
    shelf: &mut S,
    item: &T,
) -> Result<(), Failed>
    requires { (S.state shelf.old).is_created ≡ true }
    ensures written { Writes (S.state shelf.old) writer.old (P.text item.now ++ Q.text item.now)
        (S.state shelf.new) writer.new result }
    ensures known { IsOk result → P.known item.now × Q.known item.now }
{
    let Ok(()) = first.print(writer, shelf, item) else {
        return Err(Failed);
    };
    second.print(writer, shelf, item)
}
