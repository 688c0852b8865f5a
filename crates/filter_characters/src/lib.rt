// Pattern characters: whether all bytes are `0`, `1` or `x`, and the first that is none of them.
#![tactic(auto)]

ghost use Rattle.std.specs.Prelude.{◌≡◌};
ghost use Rattle.filter_characters.specs.Characters.{is_character, all_characters, first_bad_in};

fn known(character: u8) -> bool
    ensures { result ≡ is_character character }
{
    (character == b'0') | (character == b'1') | (character == b'x')
}

// Each is looked at, whatever was found before, so that the compiler can look at many at once.
pub fn all_known(characters: &[u8]) -> bool
    ensures { result ≡ all_characters characters.now }
{
    characters
        .iter()
        .fold(true, |all, character| all & known(*character))
}

// The first place of a byte that is no pattern character, where there is one.
pub fn first_bad(characters: &[u8]) -> Option<usize>
    ensures { result ≡ first_bad_in characters.now }
{
    characters.iter().position(|character| !known(*character))
}
