// Words that write numbers.
ghost use Rattle.std.specs.Prelude.{◌≡◌, ◌+◌, ◌^◌, ◌<◌};
ghost use Rattle.host.specs.Numbers.{Reads};
ghost use Rattle.script.specs.Grammar.{decimal, number_at, numbers_from, exactly, texts, ReadAs, Listed};

use super::faults::Fault;
use host::Numbered;

// The number that a word writes, by decimal digits alone.
fn number(word: &str) -> Option<u32>
    ensures { result ≡ decimal word.now }
{
    // `parse` would take a sign.
    if word.starts_with('+') {
        return None;
    }
    word.parse::<u32>().ok()
}

// The number of the word that stands at that place of the line.
pub(crate) fn number_at(word: &str, place: usize) -> Result<u32, Fault>
    ensures { result ≡ number_at place word.now }
{
    number(word).ok_or(Fault::NotANumber { word: place })
}

// The numbers of exactly N words, the first of which stands at the place `first` of the line.
#[tactic(auto, using(crate::proofs::Reading::few, crate::proofs::Reading::many))]
pub(crate) fn numbers<const N: usize>(words: &[&str], first: usize) -> Result<[u32; N], Fault>
    requires { first + N < 2 ^ 64 }
    ensures { result ≡ exactly N (texts words.now) (numbers_from first (texts words.now)) }
{
    if words.len() < N {
        return Err(Fault::TooFewWords);
    }
    if words.len() > N {
        return Err(Fault::TooManyWords);
    }
    let mut found = [0; N];
    // Not `array::try_from_fn`: its clause says that some index gave the error, and the grammar wants the first that does.
    for (i, word) in words.iter().enumerate() {
        found[i] = number_at(word, first + i)?;
    }
    Ok(found)
}

// The member of a closed set that has that number, or else the fault.
pub(crate) fn read_as<T: Numbered>(number: u32, fault: Fault) -> Result<T, Fault>
    ensures { ReadAs (Reads T.code) fault number result }
{
    T::try_from(number).map_err(|_| fault)
}

// The same of the number at that place of the line.
pub(crate) fn listed<T: Numbered>(number: u32, place: usize) -> Result<T, Fault>
    ensures { Listed (Reads T.code) place number result }
{
    read_as(number, Fault::OutsideList { word: place })
}
