//! The literals of terms.

ghost use Rattle.sb_sound.specs.TranslationLaws.{TranslationHolds};

/// The literal of a Bool term is true exactly where the term is.
pub fn translation_holds()
    ensures { TranslationHolds }
{
    crate::terms::pieces_keep_word();
    crate::terms::sums_keep_number();
    sb_lang::normal::normal_has_terms_words();
    sb_lang::affixes::affixes_have_their_words();
    sb_lang::order::order_tells_apart();
}
