//! Laws: printed entries, questions, paths and labels are read back, and words are short. Each function proves one for
//! its values, and `wot_script` cites them by a call.
//!
//! They use `specs/Entry.antt`, `specs/Question.antt`, `specs/ClaimLaws.antt` and `specs/Words.antt`. A change of
//! a format shows here first.
ghost use Rattle.std.specs.Prelude.{◌≡◌, ◌≢◌, ◌≤◌, ◌<◌, ◌^◌, true, Some, length};
ghost use Rattle.std.specs.Fmt.{decimal};
ghost use Rattle.std.specs.List.{AllByRecursion};
ghost use Rattle.wot_types.specs.Fpr.{digits_of, fpr_of_digits};
ghost use Rattle.wot_types.specs.ViewName.{is_view_name};
ghost use Rattle.wot_fields.specs.Decimal.{positive_up_to};
ghost use Rattle.wot_reply_lines.specs.ClaimLaws.{IsClaimPrinted, IsLabelPrinted, IsStepPrinted};
ghost use Rattle.wot_reply_lines.specs.Claims.{IsLabelSpelled, IsPathSpelled};
ghost use Rattle.wot_reply_lines.specs.Entry.{entry_of, entry_text};
ghost use Rattle.wot_reply_lines.specs.Question.{IsQuestionRead};
ghost use Rattle.wot_reply_lines.specs.Words.{target_words, word_at};

use crate::words::target_word;
use crate::{ClaimLine, ClaimStepLine, LabelLine};
use wot_fields::laws::{decimal_is_read, name_is_valid, positive_is_read, uid_is_read};
use wot_types::{Fpr, Name, UserId, ViewName};

/// A law: a printed step is read back.
fn step_is_read(step: &ClaimStepLine)
    ensures { IsStepPrinted step.now }
{
    step.0.printed_is_read();
    decimal_is_read(u32::MAX, step.1);
}

fn steps_are_read(steps: &[ClaimStepLine])
    ensures { AllByRecursion IsStepPrinted steps.now }
{
    for step in steps {
        step_is_read(step);
    }
}

fn claim_is_read(claim: &ClaimLine)
    requires { IsPathSpelled claim.now }
    ensures { IsClaimPrinted claim.now }
{
    positive_is_read(255, u32::from(claim.0));
    steps_are_read(claim.1.items());
}

/// A law: printed paths are read back.
pub fn claims_are_read(claims: &[ClaimLine])
    requires { AllByRecursion IsPathSpelled claims.now }
    ensures { AllByRecursion IsClaimPrinted claims.now }
{
    for claim in claims {
        claim_is_read(claim);
    }
}

fn label_is_read(label: &LabelLine)
    requires { IsLabelSpelled label.now }
    ensures { IsLabelPrinted label.now }
{
    label.0.printed_is_read();
    positive_is_read(255, u32::from(label.1));
}

/// A law: printed labels are read back.
pub fn labels_are_read(labels: &[LabelLine])
    requires { AllByRecursion IsLabelSpelled labels.now }
    ensures { AllByRecursion IsLabelPrinted labels.now }
{
    for label in labels {
        label_is_read(label);
    }
}

/// A law: a printed name of an entry is read back, and is short.
pub fn entry_is_read(name: &Name)
    ensures read { entry_of (entry_text name.now) ≡ Some name.now }
    ensures short { length (entry_text name.now) ≤ 64 }
    ensures free { AllByRecursion (λ octet. octet ≢ 10) (entry_text name.now) }
{
    match name {
        Name::Cert(fpr) => fpr.printed_is_read(),
        Name::TrustRoot => {}
    }
}

/// A law: a name and a number that isn't 0 are read back.
pub fn wanted_is_read(name: &ViewName, wanted: u32)
    requires { 1 ≤ wanted }
    ensures name { is_view_name name.now ≡ true }
    ensures read { positive_up_to 4294967295 (decimal wanted) ≡ Some wanted }
    ensures small { wanted < 2 ^ 64 }
{
    name_is_valid(name);
    positive_is_read(u32::MAX, wanted);
}

/// A law: a question that is printed after the name of a view is read back.
pub fn question_is_read(view: &ViewName, fpr: &Fpr, wanted: u32, uid: &UserId)
    requires { 1 ≤ wanted }
    ensures name { is_view_name view.now ≡ true }
    ensures read { IsQuestionRead (record { fpr = fpr.now; wanted = wanted; uid = uid.now }) }
    ensures digits { fpr_of_digits (digits_of fpr.now) ≡ Some fpr.now }
{
    name_is_valid(view);
    fpr.printed_is_read();
    positive_is_read(u32::MAX, wanted);
    uid_is_read(uid.octets());
}

/// A law: a number has at most 20 digits.
pub fn decimals_fit(number: u64)
    ensures { length (decimal number) ≤ 20 }
{}

/// A law: a name has at most 32 octets.
pub fn names_fit(name: &ViewName)
    ensures { length name.now ≤ 32 }
{
    let _octets = name.octets();
}

/// A law: a word of a target has at most 8 octets.
pub fn words_fit(word: u8)
    ensures { length (word_at target_words word) ≤ 8 }
{
    let _text = target_word(word);
}
