//! What comes next of a bundle.
ghost use Rattle.read_bundle.specs.Steps.{begins_part};
ghost use Rattle.read_bundle.specs.declared.next.Next.TheVariants as nexts;
ghost use Rattle.std.specs.Bool.{OnFalse, OnTrue};
ghost use Rattle.std.specs.Prelude.{◌≡◌, ◌⊎◌};

/// What comes next of a bundle.
#[derive(Clone, Copy, Debug)]
pub enum Next {
    /// Bytes of the part, or none.
    Bytes,
    /// The end of the part, after which another one begins.
    PartEnd,
    /// The end of the part and of the bundle.
    End,
}

impl Next {
    /// Whether the part goes on.
    pub fn is_bytes(self) -> bool
        ensures yes { OnTrue result (self ≡ nexts.Bytes) }
        ensures no { OnFalse result ((self ≡ nexts.PartEnd) ⊎ (self ≡ nexts.End)) }
    {
        match self {
            Next::Bytes => true,
            Next::PartEnd | Next::End => false,
        }
    }

    /// Whether another part begins.
    pub fn begins_part(self) -> bool
        ensures { result ≡ begins_part self }
    {
        match self {
            Next::PartEnd => true,
            Next::Bytes | Next::End => false,
        }
    }

    /// Whether the bundle ends.
    pub fn is_end(self) -> bool
        ensures yes { OnTrue result (self ≡ nexts.End) }
        ensures no { OnFalse result (self ≡ nexts.End → ⊥) }
    {
        match self {
            Next::End => true,
            Next::Bytes | Next::PartEnd => false,
        }
    }
}
