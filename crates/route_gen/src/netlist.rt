//! The netlist of a generated problem.
ghost use Rattle.std.specs.Prelude.{◌≡◌, ◌<◌, ◌^◌, ◌++◌, decimal, IfOk, OnOk, length};
ghost use Rattle.route_gen.specs.Netlists as spec;

use crate::draws::{INPUT_COUNT, Inputs};
use itoa::Buffer;
use std::alloc::{AllocError, Global};

/// Adds a number in decimal digits.
pub fn push_number(text: &mut Vec<u8>, number: u32) -> Result<(), AllocError>
    ensures { OnOk result (text.new.items ≡ text.old.items ++ decimal number) }
{
    text.extend_from_slice(Buffer::new().format(number).as_bytes())
}

/// The name of a net, by its number.
pub fn net_name(alloc: Global, net: u32) -> Result<Vec<u8>, AllocError>
    ensures { IfOk result (λ name. name.items ≡ spec.net_name net) }
{
    let mut name = Vec::from_slice(alloc, b"n")?;
    push_number(&mut name, net)?;
    Ok(name)
}

/// Adds the name of a block, by its number.
pub fn push_block_name(text: &mut Vec<u8>, block: u32) -> Result<(), AllocError>
    ensures { OnOk result (text.new.items ≡ text.old.items ++ spec.block_name block) }
{
    text.extend_from_slice(b"b")?;
    push_number(text, block)
}

/// Adds the word of a pin: the net that it is on, or that there is none.
fn push_pin(text: &mut Vec<u8>, net: Option<u32>) -> Result<(), AllocError>
    ensures { OnOk result (text.new.items ≡ text.old.items ++ spec.pin_word net) }
{
    let Some(net) = net else {
        return text.extend_from_slice(b"open");
    };
    text.extend_from_slice(b"n")?;
    push_number(text, net)
}

/// Adds the words of a block's inputs.
fn push_inputs(text: &mut Vec<u8>, inputs: &Inputs) -> Result<(), AllocError>
    ensures { OnOk result (text.new.items ≡ text.old.items ++ spec.input_words inputs.now) }
{
    for pin in 0..INPUT_COUNT {
        push_pin(text, inputs.net(pin))?;
        text.extend_from_slice(b" ")?;
    }
    Ok(())
}

/// Adds the first line of a block, and what its second one begins with.
fn push_start(text: &mut Vec<u8>, block: u32) -> Result<(), AllocError>
    ensures { OnOk result (text.new.items ≡ text.old.items ++ spec.block_start block) }
{
    text.extend_from_slice(b".clb ")?;
    push_block_name(text, block)?;
    text.extend_from_slice(b"\npinlist: ")
}

/// The net that a block drives, if there are so many.
fn driven(nets: u32, block: u32) -> Option<u32>
    ensures { result ≡ spec.driven nets block }
{
    if block < nets { Some(block) } else { None }
}

/// Adds the two lines of a block.
fn push_block(text: &mut Vec<u8>, nets: u32, block: u32, inputs: &Inputs) -> Result<(), AllocError>
    ensures { OnOk result
        (text.new.items ≡ text.old.items ++ spec.block_lines nets (block, inputs.now)) }
{
    push_start(text, block)?;
    push_inputs(text, inputs)?;
    push_pin(text, driven(nets, block))?;
    text.extend_from_slice(b"\n")
}

/// The netlist of blocks with these inputs, of which the first ones drive the nets.
pub fn netlist_text(alloc: Global, nets: u32, inputs: &[Inputs]) -> Result<Vec<u8>, AllocError>
    requires { length inputs.now < 2 ^ 32 }
    ensures { IfOk result (λ text. text.items ≡ spec.netlist_of nets inputs.now) }
{
    let mut text = Vec::new(alloc);
    for (block, taken) in inputs.iter().enumerate() {
        push_block(&mut text, nets, block as u32, taken)?;
    }
    Ok(text)
}
