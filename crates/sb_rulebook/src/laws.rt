//! Laws of the rules of proofs.

ghost use Rattle.sb_rulebook.specs.ExpansionLaws.{TestDecidesExpansion};
ghost use Rattle.sb_rulebook.specs.Follows.{RefusedLineLeavesKept};
ghost use Rattle.sb_rulebook.specs.JudgingLaws.{LinesAreTakenInOrder, EventsAreMetInOrder, CheckGoesThroughInOrder, WaitingCheckTookAll, CheckTakesFirstLines, ProofGoesAlongInOrder, RefusalIsFinal};
ghost use Rattle.sb_rulebook.specs.KeptLaws.{NothingIsOrderly, LineKeepsOrder, DroppingKeepsOrder, AllDroppedKeepsOrder, CountingAgainKeepsOrder, BeginningIsOrderly, TakingKeepsOrder, MeetingKeepsOrder, ProofsKeepOrder, AtomHasItsNumber, RegexHasItsNumber, AtomIsThereByNumber, RegexIsThereByNumber, RegexIsDeadByNumber};
ghost use Rattle.sb_rulebook.specs.LineLaws.{LineHasOneText, TextHasOneLine, TextIsRead, TextIsOneLine, TextsAreLines, PrintedLinesAreRead, PrintedProofIsRead};
ghost use Rattle.sb_rulebook.specs.PrintedLaws.{CheckTakesPrintedLines, PrintedProofGoesAlong, PrintedProofIsAccepted};
ghost use Rattle.sb_rulebook.specs.TranslationLaws.{FittingIsTranslated, LiveAreTranslated, TranslatedFits, TranslationStays};

/// The test of an expansion, which looks at finitely many characters, decides whether each character is in one class,
/// and each class leads to the derivative by all of its characters.
pub fn test_decides_expansion()
    ensures { TestDecidesExpansion }
{
    sb_lang::derivative::derivative_is_by_sets();
}

/// A line is read from its own text alone: no other text is read as it.
pub fn line_has_one_text()
    ensures { LineHasOneText }
{}

/// A text is read as one line at most.
pub fn text_has_one_line()
    ensures { TextHasOneLine }
{}

/// The text of a line is read as the line, where its numbers are below 2^64 and what may not be empty is not.
pub fn text_is_read()
    ensures { TextIsRead }
{}

/// No byte of a line's text ends it.
pub fn text_is_one_line()
    ensures { TextIsOneLine }
{}

/// Texts with a line feed behind each are the lines of their bytes, whatever bytes stand behind them.
pub fn texts_are_lines()
    ensures { TextsAreLines }
{}

/// The bytes of printed lines are read as the lines, one by one, whatever bytes stand behind them.
pub fn printed_lines_are_read()
    ensures { PrintedLinesAreRead }
{}

/// The bytes of printed lines alone are read as the lines, one by one.
pub fn printed_proof_is_read()
    ensures { PrintedProofIsRead }
{}

/// A check that takes all of some lines takes all of their texts, and comes as far.
pub fn check_takes_printed_lines()
    ensures { CheckTakesPrintedLines }
{}

/// The texts of printed lines come as far along a script as the lines do.
pub fn printed_proof_goes_along()
    ensures { PrintedProofGoesAlong }
{}

/// A proof that is printed line by line is accepted by its bytes.
pub fn printed_proof_is_accepted()
    ensures { PrintedProofIsAccepted }
{}

/// A line that is refused adds nothing to what is kept.
pub fn refused_line_leaves_kept()
    ensures { RefusedLineLeavesKept }
{}

/// Lines are taken one behind the other.
pub fn lines_are_taken_in_order()
    ensures { LinesAreTakenInOrder }
{}

/// Events are met one behind the other, each with the lines that those before it left.
pub fn events_are_met_in_order()
    ensures { EventsAreMetInOrder }
{}

/// Where a check still waits behind some lines it goes on with those behind them; else what it left stands in front of
/// those.
pub fn check_goes_through_in_order()
    ensures { CheckGoesThroughInOrder }
{}

/// A check that still waits behind some lines has taken all of them.
pub fn waiting_check_took_all()
    ensures { WaitingCheckTookAll }
{}

/// A check takes the first lines, and leaves the others.
pub fn check_takes_first_lines()
    ensures { CheckTakesFirstLines }
{}

/// A proof goes along the first events of a script, and then along the others to the end.
pub fn proof_goes_along_in_order()
    ensures { ProofGoesAlongInOrder }
{}

/// Where a line is refused nothing changes any more, whatever lines and events come.
pub fn refusal_is_final()
    ensures { RefusalIsFinal }
{}

/// What is kept at first is orderly.
pub fn nothing_is_orderly()
    ensures { NothingIsOrderly }
{}

/// A line that follows leaves what is kept orderly.
pub fn line_keeps_order()
    ensures { LineKeepsOrder }
{
    sb_lang::order::order_tells_apart();
}

/// What is kept stays orderly where levels are left.
pub fn dropping_keeps_order()
    ensures { DroppingKeepsOrder }
{}

/// What is kept stays orderly where all assertions are left.
pub fn all_dropped_keeps_order()
    ensures { AllDroppedKeepsOrder }
{}

/// What is kept stays orderly where a verdict is given.
pub fn counting_again_keeps_order()
    ensures { CountingAgainKeepsOrder }
{}

/// What is kept at the beginning of a proof is orderly.
pub fn beginning_is_orderly()
    ensures { BeginningIsOrderly }
{}

/// A line that is taken, whether it is refused or not, leaves what is kept orderly.
pub fn taking_keeps_order()
    ensures { TakingKeepsOrder }
{
    sb_lang::order::order_tells_apart();
}

/// An event that is met leaves what is kept orderly.
pub fn meeting_keeps_order()
    ensures { MeetingKeepsOrder }
{
    sb_lang::order::order_tells_apart();
}

/// Behind each proof along each script what is kept is orderly.
pub fn proofs_keep_order()
    ensures { ProofsKeepOrder }
{
    sb_lang::order::order_tells_apart();
}

/// An atom has the number at which it stands, and no other: it may be looked for by hash.
pub fn atom_has_its_number()
    ensures { AtomHasItsNumber }
{
    sb_lang::order::order_tells_apart();
}

/// A regex has the number at which it stands, and no other: it may be looked for by hash.
pub fn regex_has_its_number()
    ensures { RegexHasItsNumber }
{
    sb_lang::order::order_tells_apart();
}

/// An atom is repeated where it has a number.
pub fn atom_is_there_by_number()
    ensures { AtomIsThereByNumber }
{}

/// A regex is repeated where it has a number.
pub fn regex_is_there_by_number()
    ensures { RegexIsThereByNumber }
{}

/// A regex is dead where its number is.
pub fn regex_is_dead_by_number()
    ensures { RegexIsDeadByNumber }
{
    sb_lang::order::order_tells_apart();
}

/// The literal of a term over a table of atoms is the same over a larger table.
pub fn translation_stays()
    ensures { TranslationStays }
{}

/// A well-sorted term of the fragment has a literal over some table, and over some larger one than any given.
pub fn fitting_is_translated()
    ensures { FittingIsTranslated }
{
    sb_lang::order::order_tells_apart();
}

/// The live assertions of a check that is in the fragment have literals over one table.
pub fn live_are_translated()
    ensures { LiveAreTranslated }
{
    sb_lang::order::order_tells_apart();
}

/// A well-sorted term that has a literal over some table is of the fragment.
pub fn translated_fits()
    ensures { TranslatedFits }
{
    sb_script::laws::small_both_ways();
}
