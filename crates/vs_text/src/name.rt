//! What requests are called.
ghost use Rattle.std.specs.Prelude.{◌≡◌};
ghost use Rattle.vs_types.specs.Finds.{Finds};
ghost use Rattle.vs_text.specs.Requests.{name_text};

/// What a request is called.
#[derive(Clone, Copy, Debug, PartialEq, Eq)]
pub enum Name {
    Map,
    Unmap,
    Protect,
    Resolve,
    Access,
}

pub(crate) fn parse_name(word: &[u8]) -> Option<Name>
    ensures { Finds (λ name. word.now ≡ name_text name) result }
{
    match word {
        b"map" => Some(Name::Map),
        b"unmap" => Some(Name::Unmap),
        b"protect" => Some(Name::Protect),
        b"resolve" => Some(Name::Resolve),
        b"access" => Some(Name::Access),
        _ => None,
    }
}
