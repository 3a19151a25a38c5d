//! `parse`: a text to a parsed expression (RFC 9580, section 8).
//!
//! It uses `mark`, `range` and `builder`, and `specs/Grammar.antt`. The limit on length is set here; a change
//! of the grammar changes which scopes match, and `docs/PROFILE.md`.
ghost use Rattle.std.specs.Prelude.{◌≡◌, ℕ, ◌+◌, ◌<◌, ◌≤◌, List, [], length, IfOk, IfErr};
ghost use Rattle.std.specs.Str.{chars};
ghost use Rattle.wot_pattern.specs.Reading.{Reading};
ghost use Rattle.wot_pattern.specs.Grammar.{Reads, Says, pattern};
ghost use Rattle.wot_pattern.specs.Steps.{NoStep, StepsTo};
ghost use Rattle.wot_pattern.specs.declared.fault.PatternFault.TheVariants.{Unreadable};

use crate::builder::{Builder, Operator};
use crate::fault::PatternFault;
use crate::mark::{Mark, mark_of};
use crate::node::Leaf;
use crate::pattern::Pattern;
use crate::range::read_range;
use std::alloc::Global;

/// The most characters of an expression.
const LONGEST: usize = 1024;

/// Parses a regular expression (RFC 9580, section 8) of at most 1,024 characters, with parentheses nested at most 64
/// deep. Returns `Unreadable` if and only if the text isn't one.
pub fn parse(alloc: Global, text: &str) -> Result<Pattern, PatternFault>
    ensures read { IfOk result (λ p. Says (chars text.now) p) }
    ensures unreadable { IfErr result (λ e. e ≡ Unreadable → (p : Reading) → Says (chars text.now) p → ⊥) }
{
    let characters = characters_of(alloc, text)?;
    read_pattern(alloc, &characters)
}

/// A text has at most one reading.
#[tactic(auto, using(crate::proofs::Law::says_one))]
pub fn one_reading()
    ensures one { (text : List ℕ) (p q : Reading) → Says text p → Says text q → p ≡ q }
{}

/// The characters of a text, unless it is too long.
fn characters_of(alloc: Global, text: &str) -> Result<Vec<char>, PatternFault>
    ensures all { IfOk result (λ v. v.items ≡ chars text.now) }
    ensures short { IfOk result (λ v. length v.items ≤ 1024) }
    ensures long { IfErr result (λ e. e ≡ Unreadable → 1024 < length (chars text.now)) }
{
    let mut characters = Vec::new(alloc);
    let mut rest = text.chars();
    'characters: while let Some(character) = rest.next() {
        if characters.len() >= LONGEST {
            return Err(PatternFault::Unreadable);
        }
        characters.push(character)?;
    }
    Ok(characters)
}

fn read_pattern(alloc: Global, text: &[char]) -> Result<Pattern, PatternFault>
    ensures read { IfOk result (λ p. Reads pattern 64 text.now p []) }
    ensures unreadable { IfErr result (λ e. e ≡ Unreadable → (p : Reading) → Reads pattern 64 text.now p [] → ⊥) }
{
    let mut builder = Builder::new(alloc)?;
    let mut at = 0;
    'steps: while at < text.len() {
        let mark = mark_of(text[at]);
        at = step_by(alloc, &mut builder, text, at, mark)?;
    }
    builder.finish()
}

/// Takes one step at a character with this mark. Returns the position after what was read.
fn step_by(
    alloc: Global,
    builder: &mut Builder,
    text: &[char],
    at: usize,
    mark: Mark,
) -> Result<usize, PatternFault>
    requires { at < length text.now }
    ensures built { IfOk result (λ next. StepsTo mark text.now at next builder.old builder.new) }
    ensures within { IfOk result (λ next. (at < next) × (next ≤ length text.now)) }
    ensures unreadable { IfErr result (λ e. e ≡ Unreadable → NoStep mark text.now at builder.old) }
{
    let behind = at + 1;
    match mark {
        Mark::Escape => {
            if behind >= text.len() {
                return Err(PatternFault::Unreadable);
            }
            builder.atom(Leaf::Exactly(text[behind]))?;
            Ok(behind + 1)
        }
        Mark::Bracket => {
            let (leaf, end) = read_range(alloc, text, behind)?;
            builder.atom(leaf)?;
            Ok(end)
        }
        Mark::Open => {
            builder.open()?;
            Ok(behind)
        }
        Mark::Close => {
            builder.close()?;
            Ok(behind)
        }
        Mark::Bar => {
            builder.bar()?;
            Ok(behind)
        }
        Mark::Any => {
            builder.atom(Leaf::Any)?;
            Ok(behind)
        }
        Mark::Start => {
            builder.atom(Leaf::Start)?;
            Ok(behind)
        }
        Mark::End => {
            builder.atom(Leaf::End)?;
            Ok(behind)
        }
        Mark::Star => {
            builder.repeat(Operator::Star)?;
            Ok(behind)
        }
        Mark::Plus => {
            builder.repeat(Operator::Plus)?;
            Ok(behind)
        }
        Mark::Optional => {
            builder.repeat(Operator::Optional)?;
            Ok(behind)
        }
        Mark::Plain => {
            builder.atom(Leaf::Exactly(text[at]))?;
            Ok(behind)
        }
    }
}
