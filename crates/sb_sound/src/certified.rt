//! Scripts that are answered with their proofs.
//!
//! A solver that writes a proof answers a script entry by entry, and for each entry says what lines it wrote and that
//! they prove the verdict it gave (`Certifies`), from how far the proof had come to how far it comes. The laws here
//! make the whole of it.

ghost use Rattle.sb_sound.specs.CertifiedLaws.{CertifiedIsAccepted, CertifiedToExitIsAccepted, CertifiedFollows, CertifiedGoesOn};

/// Where each entry of a script is answered with the lines of its proof, all of these lines, with the last lines behind
/// them, are an accepted proof of the script.
pub fn certified_is_accepted()
    ensures { CertifiedIsAccepted }
{
    sb_rulebook::laws::texts_are_lines();
    sb_rulebook::laws::text_is_one_line();
    sb_rulebook::laws::check_takes_printed_lines();
    sb_rulebook::laws::check_goes_through_in_order();
    sb_rulebook::laws::events_are_met_in_order();
    sb_rulebook::laws::printed_proof_goes_along();
}

/// The same where an entry ends the run: it has no lines, and what stands behind it is not looked at.
pub fn certified_to_exit_is_accepted()
    ensures { CertifiedToExitIsAccepted }
{
    sb_rulebook::laws::texts_are_lines();
    sb_rulebook::laws::text_is_one_line();
    sb_rulebook::laws::check_takes_printed_lines();
    sb_rulebook::laws::check_goes_through_in_order();
    sb_rulebook::laws::events_are_met_in_order();
    sb_rulebook::laws::printed_proof_goes_along();
}

/// Where entries are answered so far, the lines so far are whole, none of them is refused, and no more are due.
pub fn certified_follows()
    ensures { CertifiedFollows }
{
    sb_rulebook::laws::texts_are_lines();
    sb_rulebook::laws::text_is_one_line();
    sb_rulebook::laws::check_takes_printed_lines();
    sb_rulebook::laws::check_goes_through_in_order();
    sb_rulebook::laws::events_are_met_in_order();
}

/// Where entries are answered so far, and others and their lines come behind them, the proof goes along with those of
/// the others from where it had come.
pub fn certified_goes_on()
    ensures { CertifiedGoesOn }
{
    sb_rulebook::laws::texts_are_lines();
    sb_rulebook::laws::text_is_one_line();
    sb_rulebook::laws::check_takes_printed_lines();
    sb_rulebook::laws::check_goes_through_in_order();
    sb_rulebook::laws::events_are_met_in_order();
}
