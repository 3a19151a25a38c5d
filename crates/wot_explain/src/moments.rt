//! Comparisons of a time with the end or the soft revocation of a key. `target` and `words` share them.
ghost use Rattle.std.specs.Prelude.{◌≡◌};
ghost use Rattle.wot_standing.specs.Usable.{is_after as is_after_spec};

/// Whether there is no end, or it is after `t`.
pub(crate) fn ends_after(t: u32, end: Option<u64>) -> bool
    ensures { result ≡ is_after_spec t end }
{
    match end {
        Some(end) => (t as u64) < end,
        None => true,
    }
}

/// Whether there is no such moment, or it is after `t`.
pub(crate) fn is_after(t: u32, moment: Option<u32>) -> bool
    ensures { result ≡ is_after_spec t moment }
{
    match moment {
        Some(moment) => t < moment,
        None => true,
    }
}
