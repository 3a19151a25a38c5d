//! The shapes in which the facts of a signature are kept, and the octet that stands for each.
//!
//! It uses `specs/KeptOctets.antt`. `new_octets` chooses the shape, and `kept_facts` has the facts of each.
ghost use Rattle.std.specs.Prelude.{◌≡◌};
ghost use Rattle.wot_kept_signature.specs.KeptOctets.{shape_octet, shape_of, head_size};

/// The shape of the facts of a signature.
#[derive(Clone, Copy)]
pub(crate) enum Shape {
    /// No facts: the body can't be parsed.
    Unparseable = 0,
    /// The creation time, the depth, the amount and the issuer's place: what most certifications say.
    Plain = 1,
    /// All facts but those that stand in the body, and the issuer's place if it names one.
    Full = 2,
    /// No facts: they are read from the body each time. It is for a signature type, a hash algorithm or an issuer that
    /// isn't found in the body. Bodies that can be parsed have all three, but that isn't proved.
    NotKept = 3,
}

impl Shape {
    /// The octet that stands for it.
    pub(crate) fn octet(self) -> u8
        ensures { result ≡ shape_octet self }
    {
        self as u8
    }

    /// The shape that an octet stands for.
    #[inline(always)]
    pub(crate) fn of(octet: u8) -> Shape
        ensures { result ≡ shape_of octet }
    {
        match octet {
            0 => Shape::Unparseable,
            1 => Shape::Plain,
            2 => Shape::Full,
            _ => Shape::NotKept,
        }
    }

    /// How many octets the shape and the facts take.
    #[inline(always)]
    pub(crate) fn head_size(self) -> usize
        ensures { result ≡ head_size self }
    {
        match self {
            Shape::Unparseable => 1,
            Shape::Plain => 11,
            Shape::Full => 26,
            Shape::NotKept => 1,
        }
    }
}
