//! Which form a line of a netlist text has, by its first word.
ghost use Rattle.std.specs.Prelude.{◌≡◌, ℕ, List};
ghost use Rattle.fpga_net.specs.Forms.{form_by, form_of as form_said_by};
ghost use Rattle.fpga_net.specs.Lines.{form_said};

use fpga_text::{Line, is_text};
use fpga_types::BlockKind;

/// The forms of a line.
#[derive(Clone, Copy)]
pub enum LineForm {
    /// The first line of a block of this kind.
    Begins(BlockKind),
    /// The nets of a block's pins.
    Pinlist,
    /// A part of a logic block.
    Subblock,
    /// Names of global nets.
    Globals,
    /// No form of a line.
    Other,
}

/// The form of a line of which no word was taken yet. The first word is taken.
pub fn form_of(line: &mut Line<'_>) -> LineForm
    ensures form { form_said result line.new.words ≡ form_said_by line.old.words }
    ensures number { line.new.number ≡ line.old.number }
{
    let Some(word) = line.next_word() else {
        return LineForm::Other;
    };
    form_begun(word.text)
}

/// The form of a line with this first word.
fn form_begun(word: &[u8]) -> LineForm
    ensures { (rest : List (List ℕ)) → form_said result rest ≡ form_by word.now rest }
{
    if is_text(word, b".input") {
        return LineForm::Begins(BlockKind::Input);
    }
    if is_text(word, b".output") {
        return LineForm::Begins(BlockKind::Output);
    }
    if is_text(word, b".clb") {
        return LineForm::Begins(BlockKind::Logic);
    }
    if is_text(word, b"pinlist:") {
        return LineForm::Pinlist;
    }
    if is_text(word, b"subblock:") {
        return LineForm::Subblock;
    }
    if is_text(word, b".global") {
        return LineForm::Globals;
    }
    LineForm::Other
}
