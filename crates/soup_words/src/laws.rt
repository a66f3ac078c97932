//! A law of the definitions: a function that does nothing, with the law as its contract.

ghost use Rattle.soup_words.specs.Laws.{WordsAreClear};

/// Does nothing: its contract is the law that words give at most one order.
pub fn words_are_clear()
    ensures { WordsAreClear }
{}
