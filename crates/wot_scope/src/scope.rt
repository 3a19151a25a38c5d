//! `in_scope`: whether one of a signature's regular expressions matches a user ID.
//!
//! It uses `scopes` of `wot_signature`, `parse` and `Matcher`, and `specs/Scope.antt`. A change here changes
//! which edges a path may use.
ghost use Rattle.std.specs.Prelude.{◌≡◌, ◌↔◌, ◌∷◌, IsTrue, IfOk};
ghost use Rattle.wot_signature.specs.Signature.{scopes_of};
ghost use Rattle.wot_scope.specs.Scope.{TextMatches, OneMatches, ScopeHolds};
ghost use Rattle.wot_scope.specs.Deciding.{scope_holds};

use crate::laws::scope_is_told;
use std::alloc::Global;
use std::str;
use wot_pattern::{Matcher, PatternFault, one_reading, parse};
use wot_signature::{Scopes, scopes};
use wot_types::Memory;

/// Whether the scope of this signature body holds for the user ID: the body has no regular expression, or the user ID
/// is UTF-8 and a well-formed regular expression of the body matches it.
pub fn in_scope(alloc: Global, body: &[u8], uid: &[u8]) -> Result<bool, Memory>
    ensures holds { IfOk result (λ holds. IsTrue holds ↔ ScopeHolds (scopes_of body.now) uid.now) }
    ensures reported { IfOk result (λ holds. holds ≡ scope_holds (scopes_of body.now) uid.now) }
{
    scope_is_told();
    holds(alloc, body, uid)
}

fn holds(alloc: Global, body: &[u8], uid: &[u8]) -> Result<bool, Memory>
    ensures holds { IfOk result (λ holds. IsTrue holds ↔ ScopeHolds (scopes_of body.now) uid.now) }
{
    let mut texts = scopes(body);
    match texts.next() {
        None => Ok(true),
        Some(first) => match str::from_utf8(uid) {
            Err(_) => Ok(false),
            Ok(uid) => {
                let holds = one_matches(alloc, first, texts, uid)?;
                Ok(holds)
            }
        },
    }
}

fn one_matches(alloc: Global, first: &[u8], others: Scopes<'_>, uid: &str) -> Result<bool, Memory>
    ensures { IfOk result (λ holds. IsTrue holds ↔ OneMatches (first.now ∷ others.entry) uid.now) }
{
    if text_matches(alloc, first, uid)? {
        return Ok(true);
    }
    for text in others {
        if text_matches(alloc, text, uid)? {
            return Ok(true);
        }
    }
    Ok(false)
}

/// Whether these octets are a well-formed regular expression that matches the user ID.
fn text_matches(alloc: Global, octets: &[u8], uid: &str) -> Result<bool, Memory>
    ensures { IfOk result (λ holds. IsTrue holds ↔ TextMatches octets.now uid.now) }
{
    one_reading();
    let Ok(text) = str::from_utf8(octets) else {
        return Ok(false);
    };
    let pattern = match parse(alloc, text) {
        Ok(pattern) => pattern,
        Err(PatternFault::Unreadable) => return Ok(false),
        Err(PatternFault::Memory) => return Err(Memory),
    };
    let mut matcher = Matcher::new(alloc, pattern)?;
    Ok(matcher.matches(uid))
}
