//! Words that name numbers, and the word that names a drill.
ghost use Rattle.std.specs.Prelude.{◌≡◌};
ghost use Rattle.acas_drill_model.specs.Word.{drill_number, number_within};

use acas_units::{GREATEST_DRILL_NUMBER, LEAST_DRILL_NUMBER};
use itoa::Buffer;

/// The number from the least to the greatest that a word names, in decimal without a sign or leading zeros, or None where it names none.
/// It takes no memory.
pub fn number_within(word: &str, least: u32, greatest: u32) -> Option<u32>
    ensures { result ≡ number_within least greatest word.now }
{
    let Ok(number) = word.parse::<u32>() else {
        return None;
    };
    let mut buffer = Buffer::new();
    if least <= number && number <= greatest && buffer.format(number) == word {
        Some(number)
    } else {
        None
    }
}

/// The number of a drill that a word names, at most [`GREATEST_DRILL_NUMBER`] and without leading zeros, or None where it names none. It
/// takes no memory.
#[tactic(auto, unfolding(crate::specs::Word::drill_number))]
pub fn drill_number(word: &str) -> Option<u32>
    ensures { result ≡ drill_number word.now }
{
    number_within(word, LEAST_DRILL_NUMBER, GREATEST_DRILL_NUMBER)
}
