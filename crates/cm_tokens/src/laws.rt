//! What holds of the definitions themselves.

ghost use Rattle.cm_tokens.specs.Examples.{Comments, Dots, Numerals, SameWords, Words};
ghost use Rattle.cm_tokens.specs.Listing.{TokensEndOnce};

/// Each text has the end as its last token, and only there.
pub fn tokens_end_once()
    ensures { TokensEndOnce }
{}

fn dots_go_by_the_longest_mark()
    ensures { Dots }
{}

fn reserved_words_are_no_names()
    ensures { SameWords }
{}

fn words_are_reserved_whole()
    ensures { Words }
{}

fn numerals_have_no_needless_nought()
    ensures { Numerals }
{}

fn comments_end_before_the_newline()
    ensures { Comments }
{}
