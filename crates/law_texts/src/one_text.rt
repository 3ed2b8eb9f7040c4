//! The law of the single text: what `ffm` writes is fixed by its words and by what the named files hold.
//!
//! The function here does nothing. Its contract is a law of the texts that are due.

ghost use Rattle.std.specs.Prelude.{◌≡◌, false, ℕ, List};
ghost use Rattle.ffm_model.specs.Reading.{Contents};
ghost use Rattle.command_words.specs.Words.{asks_threads, order_of};
ghost use Rattle.law_texts.specs.SingleText.{HasOneText};

/// But for a run with threads, one text is due, with one status, whatever the words are and the names
/// hold: the trace of the one run, the one listing, judgement, audit or summary, the usage line, or the
/// one refusal.
pub fn one_text_is_due()
    ensures { (words : List (List ℕ)) (of : Contents)
        → asks_threads (order_of words) ≡ false → HasOneText words of }
{}
