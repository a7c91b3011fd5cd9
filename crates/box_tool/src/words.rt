// A text that is a number.
ghost use Rattle.std.specs.Prelude.{◌≡◌};
ghost use Rattle.box_tool.specs.Numerals.{number_of};

// A number as a script has it: one to three digits, no needless zero; and nothing else.
#[tactic(auto, using(crate::proofs::Numerals::no_number, crate::proofs::Numerals::more_than_number, crate::proofs::Numerals::a_number))]
pub fn number_of(text: &[u8]) -> Option<usize>
    ensures { result ≡ number_of text.now }
{
    let part = grammar::number_at(text, 0)?;
    if part.end < text.len() {
        return None;
    }
    Some(part.word as usize)
}
