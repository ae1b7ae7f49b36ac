// Cutting a text at a byte.
ghost use Rattle.std.specs.Prelude.{◌≡◌};
ghost use Rattle.std.specs.Option.{option_map};
ghost use Rattle.text.specs.Parts.{up_to, beyond};

// The text before the first separator, and the text behind it, or nothing where there is none.
pub fn cut(text: &[u8], separator: u8) -> (&[u8], Option<&[u8]>)
    ensures part { result.0.now ≡ up_to separator text.now }
    ensures rest { option_map (λ x. x.now) result.1 ≡ beyond separator text.now }
{
    match text.iter().position(|b| *b == separator) {
        Some(i) => (&text[..i], Some(&text[i + 1..])),
        None => (text, None),
    }
}
