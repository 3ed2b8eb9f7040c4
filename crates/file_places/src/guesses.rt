//! Which of several words is meant by one that isn't known.

use std::alloc::{AllocError, Global};
use strsim::generic_damerau_levenshtein;

fn lowered(alloc: Global, word: &[u8]) -> Result<Vec<u8>, AllocError> {
    word.iter().map(|b| b.to_ascii_lowercase()).collect(alloc)
}

// The longest words that are compared.
const LONGEST: usize = 64;

/// The word of these that is nearest to a given one: by two letters at most that are put in, taken out, changed or
/// swapped, and fewer for a short word; or, where there is none, one that begins it or begins with it, by three letters
/// at least. The first of several.
pub fn nearest<'a>(
    alloc: Global,
    words: &[&'a [u8]],
    given: &[u8],
) -> Result<Option<&'a [u8]>, AllocError> {
    if given.len() > LONGEST {
        return Ok(None);
    }
    let wanted = lowered(alloc, given)?;
    let (mut found, mut beginning) = (None, None);
    let mut least = 3.min((given.len() / 2).saturating_add(1));
    for word in words {
        if word.len() <= LONGEST {
            let count = generic_damerau_levenshtein(alloc, &wanted, &lowered(alloc, word)?)?;
            if count < least {
                least = count;
                found = Some(*word);
            }
        }
        let begins = given.starts_with(word) || word.starts_with(given);
        if beginning.is_none() && begins && word.len().min(given.len()) >= 3 {
            beginning = Some(*word);
        }
    }
    Ok(found.or(beginning))
}
