//! The names of nets to blame, and the nets that have them.
ghost use Rattle.std.specs.Prelude.{◌≡◌, ◌⊎◌, ◌++◌, IfErr, IfOk, List, OnOk};
ghost use Rattle.std.specs.Option.{option_copied};
ghost use Rattle.fpga_types.specs.declared.netlist.Net.{Net as AnyNet};
ghost use Rattle.route_draw.specs.Blamed.{blame_of};
ghost use Rattle.route_picture.specs.declared.stop.Stop.TheVariants.{Memory};
ghost use Rattle.route_picture.specs.Blame.{AreNames, Given, IsStopped, IsStrange, NamesNetsIf, NamesOthers, TakesFront, TakesNames, blame_said, given_by, name_in};

use crate::stop::Stop;
use fpga_text::{Line, Lines, Style};
use fpga_types::Net;
use route_draw::{Emphasis, NetNames};
use std::alloc::{AllocError, Global};

/// Which nets the picture is to show beside the others: those that the text names, if there is one.
pub(crate) fn emphasis<'a>(
    alloc: Global,
    nets: &'a [Net],
    text: Option<&'a [u8]>,
) -> Result<Emphasis<'a>, Stop>
    ensures blame { IfOk result
        (λ emphasis. blame_of emphasis ≡ blame_said (option_copied text.entry)) }
    ensures nets { IfOk result (λ _. NamesNetsIf nets.now (option_copied text.entry)) }
    ensures stop { IfErr result (IsStopped nets.now (option_copied text.entry)) }
{
    let Some(text) = text else {
        return Ok(Emphasis::Alike);
    };
    match blamed(alloc, nets, text) {
        Ok(names) => Ok(Emphasis::Blamed(names)),
        Err(stop) => Err(stop),
    }
}

// The names that a text gives, where each is that of a net and there are some.
fn blamed<'a>(alloc: Global, nets: &'a [Net], text: &'a [u8]) -> Result<NetNames<'a>, Stop>
    ensures names { IfOk result (TakesNames nets.now text.now) }
    ensures stop { IfErr result (λ stop. NamesOthers nets.now text.now stop ⊎ (stop ≡ Memory)) }
{
    let Ok(known) = names_of(alloc, nets) else {
        return Err(Stop::Memory);
    };
    let mut names = NetNames::new(alloc);
    let mut lines = Lines::new(text, Style::Plain);
    while let Some(mut line) = lines.next_line() {
        match take_line(&mut names, &known, &mut line) {
            Ok(()) => (),
            Err(stop) => return Err(stop),
        }
    }
    if names.is_empty() {
        return Err(Stop::NoNames);
    }
    Ok(names)
}

// The names of the nets.
fn names_of<'a>(alloc: Global, nets: &'a [Net]) -> Result<NetNames<'a>, AllocError>
    ensures { IfOk result (AreNames nets.now) }
{
    let mut names = NetNames::new(alloc);
    for net in nets {
        names.add(net.name.bytes.as_slice())?;
    }
    Ok(names)
}

// Takes the name that a line gives, if it gives one, where it is among the known names.
fn take_line<'a>(
    names: &mut NetNames<'a>,
    known: &NetNames<'a>,
    line: &mut Line<'a>,
) -> Result<(), Stop>
    ensures taken { OnOk result ((nets : List AnyNet) (all rest : List Given) →
        AreNames nets known.now →
        TakesFront nets all (given_by line.old.number (name_in line.old.words) ++ rest) names.old →
        TakesFront nets all rest names.new) }
    ensures strange { IfErr result (λ stop. (nets : List AnyNet) → AreNames nets known.now →
        IsStrange nets (given_by line.old.number (name_in line.old.words)) stop) }
{
    let number = line.number();
    let Some(name) = given_name(line) else {
        return Ok(());
    };
    if !known.contains(name) {
        return Err(Stop::NoNet { line: number });
    }
    let Ok(()) = names.add(name) else {
        return Err(Stop::Memory);
    };
    Ok(())
}

// The name that a line gives: it has two words, of which the first is `net`.
fn given_name<'a>(line: &mut Line<'a>) -> Option<&'a [u8]>
    ensures { option_copied result ≡ name_in line.old.words }
{
    if !line.next_is(b"net") {
        return None;
    }
    let Some(word) = line.next_word() else {
        return None;
    };
    if line.has_words() {
        return None;
    }
    Some(word.text)
}
