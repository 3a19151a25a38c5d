//! Names of views: which texts are names, and their order.
//!
//! It uses `specs/ViewName.antt`. Cursors and watches have such names too. A change of what a name is made of also
//! changes `docs/PROTOCOL.md`.
ghost use Rattle.std.specs.Prelude.{◌≡◌, true, IfOk};
ghost use Rattle.std.specs.List.{list_all};
ghost use Rattle.wot_types.specs.ViewName.{is_name_octet, is_view_name, view_name_of, view_name_cmp};

use crate::Memory;
use std::alloc::Global;
use std::cmp::Ordering;
use std::marker::Model;

/// The name of a view: 1 to 32 of `a` to `z`, `0` to `9`, `-` and `_`. Names are ordered by their
/// octets.
#[derive(Debug, Drop)]
pub struct ViewName {
    octets: Vec<u8>,
}

impl Model for ViewName {
    ghost use Rattle.std.specs.Prelude.{◌≡◌, List, ℕ, true};
    ghost use Rattle.wot_types.specs.ViewName.{is_view_name};

    ghost Value = { List ℕ };

    ghost view = { λ a. a.octets.items };

    ghost invariant = { λ a. is_view_name a.octets.items ≡ true };
}

impl ViewName {
    /// Reads a name. `None` for a text that isn't one.
    pub fn read(alloc: Global, text: &[u8]) -> Result<Option<ViewName>, Memory>
        ensures read { IfOk result (λ name. name ≡ view_name_of text.now) }
    {
        if !test_view_name(text) {
            return Ok(None);
        }
        let octets = Vec::from_slice(alloc, text)?;
        Ok(Some(ViewName { octets }))
    }

    /// The octets.
    pub fn octets(&self) -> &[u8]
        ensures whole { result.now ≡ self.now }
        ensures name { is_view_name self.now ≡ true }
    {
        self.octets.as_slice()
    }

    /// A copy.
    pub fn duplicate(&self, alloc: Global) -> Result<ViewName, Memory>
        ensures equal { IfOk result (λ name. name ≡ self.now) }
    {
        let octets = Vec::from_slice(alloc, self.octets.as_slice())?;
        Ok(ViewName { octets })
    }
}

fn test_name_octet(octet: u8) -> bool
    ensures { result ≡ is_name_octet octet }
{
    matches!(octet, b'a'..=b'z' | b'0'..=b'9' | b'-' | b'_')
}

fn test_name_octets(text: &[u8]) -> bool
    ensures { result ≡ list_all is_name_octet text.now }
{
    text.iter().all(|octet| test_name_octet(*octet))
}

fn test_view_name(text: &[u8]) -> bool
    ensures { result ≡ is_view_name text.now }
{
    if text.is_empty() || text.len() > 32 {
        return false;
    }
    test_name_octets(text)
}

impl PartialEq for ViewName {
    ghost use Rattle.std.specs.Prelude.{nat_eq};
    ghost use Rattle.std.specs.Cmp.Lexicographic.{pointwise};
    ghost use Rattle.std.specs.Cmp.{partial_equiv_from_equiv};
    ghost use Rattle.std.proofs.lemmas.Cmp.{nat_list_eq_equiv};

    ghost eq = { pointwise nat_eq };

    ghost laws = { partial_equiv_from_equiv nat_list_eq_equiv };

    fn eq(&self, other: &ViewName) -> bool {
        self.octets() == other.octets()
    }
}

impl Eq for ViewName {
    ghost use Rattle.std.proofs.lemmas.Cmp.{nat_list_eq_equiv};

    ghost laws = { nat_list_eq_equiv };
}

impl PartialOrd for ViewName {
    ghost use Rattle.std.specs.Prelude.{refl};
    ghost use Rattle.std.specs.Ordering.{as_partial_cmp};
    ghost use Rattle.std.specs.Cmp.{partial_order_from_agreeing_total};
    ghost use Rattle.std.specs.Cmp.Lexicographic.{texts_ties};
    ghost use Rattle.std.proofs.lemmas.Cmp.{nat_list_cmp_total};
    ghost use Rattle.wot_types.specs.ViewName.{view_name_cmp};

    ghost partial_cmp = { as_partial_cmp view_name_cmp };

    ghost laws = { partial_order_from_agreeing_total view_name_cmp nat_list_cmp_total (λ a b. refl) texts_ties };

    fn partial_cmp(&self, other: &ViewName) -> Option<Ordering> {
        Some(self.cmp(other))
    }
}

impl Ord for ViewName {
    ghost use Rattle.std.specs.Prelude.{refl};
    ghost use Rattle.std.specs.Cmp.Lexicographic.{texts_ties};
    ghost use Rattle.std.proofs.lemmas.Cmp.{nat_list_cmp_total};
    ghost use Rattle.wot_types.specs.ViewName.{view_name_cmp};

    ghost cmp = { view_name_cmp };

    ghost total = { nat_list_cmp_total };

    ghost matches_partial_cmp = { λ a b. refl };

    ghost matches_eq = { texts_ties };

    fn cmp(&self, other: &ViewName) -> Ordering {
        self.octets().cmp(other.octets())
    }
}

/// Compares two names octet by octet.
pub fn compare_view_names(left: &ViewName, right: &ViewName) -> Ordering
    ensures octets { result ≡ view_name_cmp left.now right.now }
{
    left.cmp(right)
}
