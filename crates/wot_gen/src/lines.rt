//! `script`: the text of the commands, one line each. It is the entry of this crate for wot_engine, and its contract
//! says that each line is read as its command.
ghost use Rattle.std.specs.Prelude.{◌≡◌, ◌<◌, ◌≤◌, ◌++◌, length, IfOk, OnOk, OnErr};
ghost use Rattle.std.specs.List.{AllByRecursion};
ghost use Rattle.wot_script.specs.Spelling.{HasSpelling};
ghost use Rattle.wot_gen.specs.Script.{IsReadBack, commands_of, line_count, line_of, text_of};

use crate::commands::commands;
use std::alloc::Global;
use wot_script::{Command, print_command};
use wot_types::Memory;

/// Appends a command's line with its line feed.
fn put_line(command: &Command, text: &mut Vec<u8>) -> Result<(), Memory>
    requires { HasSpelling command.now }
    ensures put { OnOk result (text.new.items ≡ text.old.items ++ line_of command.now) }
    ensures read_back { IsReadBack command.now }
{
    print_command(command, text)?;
    text.push(b'\n')?;
    Ok(())
}

/// The text of commands.
fn text(alloc: Global, commands: &[Command]) -> Result<Vec<u8>, Memory>
    requires { AllByRecursion HasSpelling commands.now }
    ensures text { IfOk result (λ text. text.items ≡ text_of commands.now) }
    ensures read_back { OnOk result (AllByRecursion IsReadBack commands.now) }
{
    let mut text = Vec::new(alloc);
    for command in commands {
        put_line(command, &mut text)?;
    }
    Ok(text)
}

/// Appends the generated script of a start and a count, and returns the number of its lines. On `Memory` `out` is
/// unchanged.
/// The words are those of SplitMix64, whose seed is the start in eight little-endian octets. There are `count` keys
/// with one user ID each, and all but the first have three certifications by keys before them. Then come two views, a
/// question of each view on each user ID, and for each tenth key a verdict that is set to bad and back, with a question
/// after each change.
pub fn script(alloc: Global, start: u64, count: u32, out: &mut Vec<u8>) -> Result<u64, Memory>
    requires some { 1 ≤ count }
    requires few { count ≤ 2000 }
    ensures appended { OnOk result (out.new.items ≡ out.old.items ++ text_of (commands_of start count)) }
    ensures lines { IfOk result (λ lines. lines ≡ length (commands_of start count)) }
    ensures counted { IfOk result (λ lines. lines ≡ line_count count) }
    // It takes less than 4 MB.
    ensures small { OnOk result (length (text_of (commands_of start count)) < 4000000) }
    // Each line is read as its command.
    ensures read_back { OnOk result (AllByRecursion IsReadBack (commands_of start count)) }
    ensures kept { OnErr result (out.new.items ≡ out.old.items) }
{
    let commands = commands(alloc, start, count)?;
    let text = text(alloc, &commands)?;
    out.extend_from_slice(&text)?;
    Ok(commands.len() as u64)
}
