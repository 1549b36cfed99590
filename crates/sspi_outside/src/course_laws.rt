//! Laws: each step of a negotiation asks the host's contexts for exactly what its host was told.
ghost use Rattle.sspi_outside.specs.Configured.{CourseBegins};
ghost use Rattle.sspi_outside.specs.Runs.{AnswerIsStepped, ConfirmationIsVerified, FirstIsStepped};
ghost use Rattle.sspi_outside.specs.Runs.{ContinuationIsStepped, LastIsVerified, OfferIsStepped};

/// A new end of these mechanisms has what `Course::new` says.
pub fn course_begins_as_its_end()
    ensures { CourseBegins }
{}

/// In a server's first step, only the mechanism that `Course::offer_due` named steps, with the
/// envelope of the host's step. A MIC is made only over the list that `Course::take_offer` keeps.
/// Afterwards the end's state, selected mechanism, packages and list are the course's.
pub fn offer_is_stepped_as_told()
    ensures { OfferIsStepped }
{}

/// In a server's later step, the selected mechanism steps while it authenticates, and each MIC is
/// made and verified over the course's list. Once the mechanism has ended, none steps.
pub fn continuation_is_stepped_as_told()
    ensures step { ContinuationIsStepped }
    ensures last { LastIsVerified }
{}

/// In a client's first step, `Course::hand` steps, and no MIC is made or verified. Afterwards the
/// end has what `Course::make_offer` says.
pub fn first_is_stepped_as_told()
    ensures { FirstIsStepped }
{}

/// In a client's later step, the mechanism of the server's choice steps while it authenticates, or
/// the selected one if the token has no choice. Each MIC is made and verified over the course's
/// list. Once the mechanism has ended, none steps.
pub fn answer_is_stepped_as_told()
    ensures step { AnswerIsStepped }
    ensures last { ConfirmationIsVerified }
{}
