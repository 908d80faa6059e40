// The numbers and the flags that words of a command line say.
ghost use Rattle.std.specs.{
  Prelude.{◌≡◌, ◌<◌, ◌≤◌, ◌↔◌, ◌^◌, IfSome, IsSome, IsTrue, codes, map, string_bytes},
  List.{Contains},
  Str.Parse.{IsNumeral, digits_value},
};
ghost use Rattle.dy_jobs.specs.Words.{HasFlag, IsNumberWord, IsStormOf, SaysAt};

use dy_plans::Storm;

/// The storm that the words behind the first say.
pub(crate) fn storm_of(words: &[String]) -> Option<Storm>
    ensures { IfSome result (IsStormOf (map string_bytes words.now)) }
{
    let seed = number_from(words, 1)?;
    let threads = number_from(words, seed.at + 1)?;
    let puts = number_from(words, threads.at + 1)?;
    Some(Storm {
        seed: seed.number,
        threads: u8::try_from(threads.number).ok()?,
        puts: u32::try_from(puts.number).ok()?,
        faults: has_flag(words, "--faults"),
        steps: has_flag(words, "--steps"),
    })
}

/// Whether the flag is one of the words, and no word before it is two dashes alone.
pub(crate) fn has_flag(words: &[String], flag: &str) -> bool
    ensures { IsTrue result ↔ HasFlag (map string_bytes words.now) flag.now }
{
    for word in words {
        if is_same(word.as_str(), flag) {
            return true;
        }
        if is_dashes(word.as_str()) {
            return false;
        }
    }
    false
}

/// Whether the word is one of the words.
pub(crate) fn has_word(words: &[String], wanted: &str) -> bool
    ensures { IsTrue result → Contains (map string_bytes words.now) wanted.now }
{
    for word in words {
        if is_same(word.as_str(), wanted) {
            return true;
        }
    }
    false
}

// Whether both are one word.
fn is_same(word: &str, other: &str) -> bool
    ensures { IsTrue result ↔ (word.now ≡ other.now) }
{
    word == other
}

// Whether the word is two dashes alone, behind which no word is a flag.
fn is_dashes(word: &str) -> bool
    ensures { IsTrue result ↔ (word.now ≡ codes "--") }
{
    word == "--"
}

// A number that one of the words says, and which word.
#[derive(Clone, Copy)]
struct Said {
    at: usize,
    number: u64,
}

// The number of the first word from here on that is no option; none where that word is not of
// decimal digits alone, or says more than 64 bits.
fn number_from(words: &[String], from: usize) -> Option<Said>
    ensures { IfSome result (λ said. (from ≤ said.at)
        × SaysAt (map string_bytes words.now) said.at said.number) }
{
    for at in from..words.len() {
        let word = words.get(at)?.as_str();
        if !word.starts_with('-') {
            let number = number_of(word)?;
            return Some(Said { at, number });
        }
    }
    None
}

// The number that the word says.
fn number_of(word: &str) -> Option<u64>
    ensures value { IfSome result (IsNumberWord word.now) }
    ensures found { IsSome result
        ↔ (IsNumeral 10 word.now × (digits_value 10 word.now < 2 ^ 64)) }
{
    // The library takes a plus sign, too.
    if let Some(b'+') = word.as_bytes().first() {
        return None;
    }
    word.parse::<u64>().ok()
}
