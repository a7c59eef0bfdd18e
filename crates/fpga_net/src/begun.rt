//! A line that begins a block.
ghost use Rattle.std.specs.Prelude.{◌≡◌, ◌∷◌, [], ◌==◌, false, length, IfNone, IfSome};

use fpga_text::Line;
use fpga_types::BlockKind;

/// A block as its line begins it.
#[derive(Clone, Copy)]
pub struct BegunBlock<'a> {
    pub name: &'a [u8],
    pub kind: BlockKind,
}

/// The next word of a line, if it is the only one.
pub fn only_word<'a>(line: &mut Line<'a>) -> Option<&'a [u8]>
    ensures some { IfSome result (λ word. line.old.words ≡ word.now ∷ []) }
    ensures none { IfNone result ((length line.old.words == 1) ≡ false) }
{
    let Some(word) = line.next_word() else {
        return None;
    };
    if line.has_words() {
        return None;
    }
    Some(word.text)
}
