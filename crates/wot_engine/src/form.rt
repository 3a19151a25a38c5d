//! The command line: `run`, `run DIRECTORY` or `gen X N`, parsed by hand. `words` acts on it. A further form is also in
//! specs/Forms.antt and in the usage text of the docs.
ghost use Rattle.std.specs.Prelude.{◌≡◌, ◌≢◌, ◌≤◌, ◌↔◌, ◌∷◌, [], length, map, slice_index, true, false, codes};
ghost use Rattle.std.specs.Prelude.{string_bytes, IsTrue, Some, None, if◌then◌else◌};
ghost use Rattle.wot_fields.specs.Decimal.{decimal_up_to, positive_up_to};
ghost use Rattle.wot_engine.specs.Forms.{IsFormOf};

/// The largest number of keys in a script.
const MOST_KEYS: u64 = 2000;

/// What the words ask for.
#[derive(Clone, Copy)]
pub enum Form {
    /// Answer the lines of the input.
    Run,
    /// Answer the generated script of a start and a number of keys.
    Generate(u64, u32),
}

/// The form of the words: `run`, `run DIRECTORY` with any text that isn't empty, or `gen X N`.
pub fn form_of(words: &[String]) -> Option<Form>
    ensures form { IsFormOf (map string_bytes words.now) result }
{
    match words {
        [word] => run_where(is_run(word)),
        [word, folder] => run_where(is_run(word) && is_folder(folder)),
        [word, start, count] => generated(word, start, count),
        _ => None,
    }
}

fn run_where(is_run: bool) -> Option<Form>
    ensures { result ≡ (if is_run then Some Form.Run else None) }
{
    if is_run { Some(Form::Run) } else { None }
}

fn is_run(word: &String) -> bool
    ensures run { IsTrue result ↔ (string_bytes word.now ≡ codes "run") }
{
    word.as_str() == "run"
}

fn is_folder(word: &String) -> bool
    ensures folder { IsTrue result ↔ (string_bytes word.now ≢ []) }
{
    !word.is_empty()
}

/// The form `gen X N`.
fn generated(word: &String, start: &String, count: &String) -> Option<Form>
    ensures form { IsFormOf (string_bytes word.now ∷ string_bytes start.now ∷ string_bytes count.now ∷ []) result }
{
    if word.as_str() != "gen" {
        return None;
    }
    match (number_in(start), count_in(count)) {
        (Some(start), Some(count)) => Some(Form::Generate(start, count)),
        _ => None,
    }
}

/// A decimal number: `0`, or digits without a sign or a leading zero.
fn number_in(word: &String) -> Option<u64>
    ensures number { result ≡ decimal_up_to 18446744073709551615 (string_bytes word.now) }
{
    let digits = word.as_str();
    if begins_wrongly(digits.as_bytes()) {
        return None;
    }
    digits.parse().ok()
}

/// Whether a text begins with a sign, or with a leading zero.
fn begins_wrongly(digits: &[u8]) -> bool
    ensures wrong { result ≡ true → decimal_up_to 18446744073709551615 digits.now ≡ None }
    ensures sign { result ≡ false → slice_index digits.now 0 ≢ 43 }
    ensures zero { result ≡ false → 2 ≤ length digits.now → slice_index digits.now 0 ≢ 48 }
{
    match digits {
        [] => false,
        [digit] => *digit == b'+',
        [first, _, ..] => *first == b'+' || *first == b'0',
    }
}

/// The number of keys in a script.
fn count_in(word: &String) -> Option<u32>
    ensures count { result ≡ positive_up_to 2000 (string_bytes word.now) }
{
    let number = number_in(word)?;
    if number == 0 || number > MOST_KEYS {
        return None;
    }
    Some(number as u32)
}
