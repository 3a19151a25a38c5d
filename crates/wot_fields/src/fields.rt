//! Lines cut into fields: prefixes, and the field before a separator. It uses `specs/Fields.antt`. `read` and
//! `claims` take all lines apart with it.
ghost use Rattle.std.specs.Prelude.{◌≡◌, Some, None};
ghost use Rattle.std.specs.Option.{option_map};
ghost use Rattle.wot_fields.specs.Fields.{behind, cut, cut_at};

/// The text after a prefix.
pub fn after_prefix<'a>(prefix: &[u8], text: &'a [u8]) -> Option<&'a [u8]>
    ensures { option_map (λ rest. rest.now) result ≡ behind prefix.now text.now }
{
    match prefix {
        [] => Some(text),
        [x, prefix @ ..] => match text {
            [] => None,
            [y, text @ ..] => {
                if *x == *y {
                    after_prefix(prefix, text)
                } else {
                    None
                }
            }
        },
    }
}

/// A field, and the text after its separator.
#[derive(Clone, Copy)]
pub struct Cut<'a> {
    pub field: &'a [u8],
    pub rest: &'a [u8],
}

/// Cuts a text at the first separator.
pub fn cut_at(separator: u8, text: &[u8]) -> Option<Cut<'_>>
    ensures { option_map (λ parts. (parts.field.now, parts.rest.now)) result ≡ cut_at separator text.now }
{
    for (offset, octet) in text.iter().enumerate() {
        if *octet == separator {
            return Some(Cut {
                field: &text[..offset],
                rest: &text[offset + 1..],
            });
        }
    }
    None
}

/// Cuts a text at the first space.
pub fn cut_field(text: &[u8]) -> Option<Cut<'_>>
    ensures { option_map (λ parts. (parts.field.now, parts.rest.now)) result ≡ cut text.now }
{
    cut_at(b' ', text)
}
