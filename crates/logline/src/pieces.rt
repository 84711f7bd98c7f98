// A line cut at its first blank.
ghost use Rattle.std.specs.Prelude.{◌≡◌, ◌∷◌, ◌++◌};
ghost use Rattle.logline.specs.Pieces.{NoBlank, cut};
ghost use Rattle.logline.specs.Steps.{rest_pieces, rest_bytes};

// The first piece, and what follows its blank, where there is one.
pub(crate) fn first_piece<'a>(bytes: &'a [u8]) -> (&'a [u8], Option<&'a [u8]>)
    ensures clear { NoBlank result.0.now }
    ensures pieces { cut bytes.now ≡ result.0.now ∷ rest_pieces result.1 }
    ensures whole { bytes.now ≡ result.0.now ++ rest_bytes result.1 }
{
    match bytes.iter().position(|byte| *byte == b' ') {
        Some(n) => (&bytes[..n], Some(&bytes[n + 1..])),
        None => (bytes, None),
    }
}
