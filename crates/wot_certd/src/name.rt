//! The places of entries in a directory, and the place next to an entry where its new file is written. Both are pure
//! functions of the name, defined in `specs/Names.antt`. A change here changes what other programs find in a directory.
ghost use Rattle.std.specs.Prelude.{◌≡◌, ◌≢◌, ◌↔◌, ◌⊎◌, ◌+◌, ◌≤◌, ◌++◌, Some, take, drop, slice_index, codes, length};
ghost use Rattle.std.specs.Prelude.{string_bytes, IsTrue, IfOk, IfSome};
ghost use Rattle.hex.specs.Hex.{encode_lower};
ghost use Rattle.wot_types.specs.declared.fpr.Fpr.{Fpr as FprOf};
ghost use Rattle.wot_types.specs.declared.name.Name.{Name as NameOf};
ghost use Rattle.wot_types.specs.declared.name.Name.TheVariants.{Cert};
ghost use Rattle.wot_types.specs.Fpr.{digits_of};
ghost use Rattle.wot_certd.specs.Names.{IsFpr, IsName, file_of, folder_of, place_beside, entry_place, split_digits};

use std::alloc::Global;
use wot_types::{Fpr, Memory, Name};

/// The place of an entry in a directory. A certificate lies at the first two digits of its fingerprint, in lower case,
/// a slash and the other digits. The trust root lies at `trust-root`.
pub fn name_of(alloc: Global, name: &Name) -> Result<String, Memory>
    ensures place { IfOk result (λ text. string_bytes text ≡ entry_place name.now) }
{
    let mut text = folder_text(alloc, name)?;
    let file = file_text(alloc, name)?;
    text.push_str(&file)?;
    Ok(text)
}

/// The place where the new file of an entry is written before it is renamed: in the same folder, `_FILE.NUMBER`. No
/// entry has such a place, so no reader of the directory takes the file for an entry.
pub fn name_beside(alloc: Global, name: &Name, number: u32) -> Result<String, Memory>
    ensures place { IfOk result (λ text. string_bytes text ≡ place_beside name.now number) }
    ensures apart { IfOk result (λ text. (entry : NameOf) → string_bytes text ≢ entry_place entry) }
{
    text_beside(alloc, name, number)
}

fn text_beside(alloc: Global, name: &Name, number: u32) -> Result<String, Memory>
    ensures { IfOk result (λ text. string_bytes text ≡ place_beside name.now number) }
{
    let mut text = folder_text(alloc, name)?;
    text.push_str("_")?;
    let file = file_text(alloc, name)?;
    text.push_str(&file)?;
    text.push_str(".")?;
    let digits = number.to_string(alloc)?;
    text.push_str(&digits)?;
    Ok(text)
}

/// The folder of an entry, with a slash at its end.
fn folder_text(alloc: Global, name: &Name) -> Result<String, Memory>
    ensures { IfOk result (λ text. string_bytes text ≡ folder_of name.now) }
{
    match name {
        Name::Cert(fpr) => folder_digits(alloc, fpr),
        Name::TrustRoot => Ok(String::new(alloc)),
    }
}

/// The digits of a fingerprint's first octet, and a slash.
#[tactic(auto, using(crate::proofs::Places::first_digits, crate::proofs::Places::some_octets))]
fn folder_digits(alloc: Global, fpr: &Fpr) -> Result<String, Memory>
    ensures { IfOk result (λ text. string_bytes text ≡ take 2 (digits_of fpr.now) ++ codes "/") }
{
    let (first, _) = fpr.octets().split_at(1);
    let mut text = hex::encode(alloc, first)?;
    text.push_str("/")?;
    Ok(text)
}

/// The file of an entry in its folder.
fn file_text(alloc: Global, name: &Name) -> Result<String, Memory>
    ensures { IfOk result (λ text. string_bytes text ≡ file_of name.now) }
{
    match name {
        Name::Cert(fpr) => file_digits(alloc, fpr),
        Name::TrustRoot => Ok(String::from_str(alloc, "trust-root")?),
    }
}

/// The digits of a fingerprint's octets after the first.
#[tactic(auto, using(crate::proofs::Places::other_digits, crate::proofs::Places::some_octets))]
fn file_digits(alloc: Global, fpr: &Fpr) -> Result<String, Memory>
    ensures { IfOk result (λ text. string_bytes text ≡ drop 2 (digits_of fpr.now)) }
{
    let (_, others) = fpr.octets().split_at(1);
    Ok(hex::encode(alloc, others)?)
}

/// The name of the entry at this place. `None` for every other text, upper-case digits included.
pub fn fpr_of(text: &str) -> Option<Name>
    ensures found { IfSome result (λ name. text.now ≡ entry_place name) }
    ensures again { (name : NameOf) → IsName name → text.now ≡ entry_place name → result ≡ Some name }
{
    name_at(text.as_bytes())
}

fn name_at(place: &[u8]) -> Option<Name>
    ensures found { IfSome result (λ name. place.now ≡ entry_place name) }
    ensures again { (name : NameOf) → IsName name → place.now ≡ entry_place name → result ≡ Some name }
{
    if is_same(place, b"trust-root") {
        Some(Name::TrustRoot)
    } else {
        certificate_at(place)
    }
}

fn certificate_at(place: &[u8]) -> Option<Name>
    ensures found { IfSome result (λ name. place.now ≡ entry_place name) }
    ensures again { (fpr : FprOf) → IsFpr fpr → place.now ≡ split_digits (digits_of fpr) → result ≡ Some (Cert fpr) }
{
    match fpr_at(place) {
        Some(fpr) => Some(Name::Cert(fpr)),
        None => None,
    }
}

/// The fingerprint of the certificate at this place: 40 or 64 digits with a slash among them.
fn fpr_at(place: &[u8]) -> Option<Fpr>
    ensures found { IfSome result (λ fpr. place.now ≡ split_digits (digits_of fpr)) }
    ensures again { (fpr : FprOf) → IsFpr fpr → place.now ≡ split_digits (digits_of fpr) → result ≡ Some fpr }
{
    if !is_split(place) {
        return None;
    }
    if place.len() == 41 {
        fpr_of_split::<40>(place)
    } else {
        fpr_of_split::<64>(place)
    }
}

/// Whether these are 41 or 65 octets with a slash after the first two.
fn is_split(place: &[u8]) -> bool
    ensures long { IsTrue result → (length place.now ≡ 41) ⊎ (length place.now ≡ 65) }
    ensures slash { IsTrue result → slice_index place.now 2 ≡ 47 }
    ensures only { (length place.now ≡ 41) ⊎ (length place.now ≡ 65) → slice_index place.now 2 ≡ 47 → IsTrue result }
{
    (place.len() == 41 || place.len() == 65) && place[2] == b'/'
}

/// The fingerprint whose `DIGITS` digits are this place.
#[tactic(auto, using(crate::proofs::Places::placing))]
fn fpr_of_split<const DIGITS: usize>(place: &[u8]) -> Option<Fpr>
    requires long { length place.now ≡ DIGITS + 1 }
    requires some { 2 ≤ DIGITS }
    requires slash { slice_index place.now 2 ≡ 47 }
    ensures found { IfSome result (λ fpr. place.now ≡ split_digits (digits_of fpr)) }
    ensures again { (fpr : FprOf) → IsFpr fpr → place.now ≡ split_digits (digits_of fpr) → result ≡ Some fpr }
{
    let digits: [u8; DIGITS] = digits_at(place);
    match Fpr::read(&digits) {
        Some(fpr) => as_printed(fpr, &digits),
        None => None,
    }
}

/// The fingerprint, if it is printed as these digits.
fn as_printed(fpr: Fpr, digits: &[u8]) -> Option<Fpr>
    ensures same { IfSome result (λ found. (found ≡ fpr) × (digits.now ≡ digits_of fpr)) }
    ensures again { digits.now ≡ digits_of fpr → result ≡ Some fpr }
{
    if are_printed(&fpr, digits) {
        Some(fpr)
    } else {
        None
    }
}

/// The digits of a place.
fn digits_at<const DIGITS: usize>(place: &[u8]) -> [u8; DIGITS]
    requires long { length place.now ≡ DIGITS + 1 }
    requires some { 2 ≤ DIGITS }
    ensures { result ≡ take 2 place.now ++ drop 3 place.now }
{
    let (folder, _) = place.split_at(2);
    let (_, file) = place.split_at(3);
    let mut digits = [0u8; DIGITS];
    put_both(&mut digits, folder, file);
    digits
}

fn put_both(to: &mut [u8], front: &[u8], back: &[u8])
    requires { length to.old ≡ length front.now + length back.now }
    ensures { to.new ≡ front.now ++ back.now }
{
    let (first, second) = to.split_at_mut(front.len());
    first.copy_from_slice(front);
    second.copy_from_slice(back);
}

/// Whether a fingerprint is printed as these digits.
fn are_printed(fpr: &Fpr, digits: &[u8]) -> bool
    ensures { IsTrue result ↔ (digits_of fpr.now ≡ digits.now) }
{
    match fpr {
        Fpr::V4(octets) => is_same(&printed_v4(octets), digits),
        Fpr::V6(octets) => is_same(&printed_v6(octets), digits),
    }
}

fn printed_v4(octets: &[u8; 20]) -> [u8; 40]
    ensures { result ≡ encode_lower octets.now }
{
    let mut digits = [0u8; 40];
    let _ = hex::encode_to_slice(octets.as_slice(), &mut digits);
    digits
}

fn printed_v6(octets: &[u8; 32]) -> [u8; 64]
    ensures { result ≡ encode_lower octets.now }
{
    let mut digits = [0u8; 64];
    let _ = hex::encode_to_slice(octets.as_slice(), &mut digits);
    digits
}

fn is_same(left: &[u8], right: &[u8]) -> bool
    ensures { IsTrue result ↔ (left.now ≡ right.now) }
{
    left == right
}
