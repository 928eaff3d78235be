ghost use Rattle.waitfor_check.specs.Laws.{AcceptedGoesOn, StepsAre};
ghost use Rattle.waitfor_check.specs.Verdicts.{OneVerdict};

/// With an accepted certificate every run of the system ends in a whole state that has a peel order, and so enables a
/// process, if there is one.
pub fn accepted_goes_on()
    ensures { AcceptedGoesOn }
{}

/// The list of a star state's steps has exactly the steps of the centre and of the leaves.
pub fn steps_are()
    ensures { StepsAre }
{}

/// Two verdicts on one certificate are one, place by place; so none but `Accepted` comes where a certificate is accepted.
pub fn one_verdict()
    ensures { OneVerdict }
{}
