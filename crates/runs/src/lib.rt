//! What holds after every run of one port: every list of calls from power on, over every front end.
//! Each function's contract is one law; its body does nothing.
#![tactic(auto)]

ghost use Rattle.runs.specs.Laws.{PinShowsAlerts, TerminationsFollow, VconnFollows, AlertsStand, PowerStatusShown, CcStatusShown};

pub fn pin_shows_alerts()
    ensures { PinShowsAlerts }
{}

#[tactic(auto, using(crate::proofs::Outputs::terminations_follow))]
pub fn terminations_follow()
    ensures { TerminationsFollow }
{}

#[tactic(auto, using(crate::proofs::Outputs::vconn_follows))]
pub fn vconn_follows()
    ensures { VconnFollows }
{}

#[tactic(auto, using(crate::proofs::Alerts::alerts_stand))]
pub fn alerts_stand()
    ensures { AlertsStand }
{}

#[tactic(auto, using(crate::proofs::Statuses::power_status_shown))]
pub fn power_status_shown()
    ensures { PowerStatusShown }
{}

#[tactic(auto, using(crate::proofs::Statuses::cc_status_shown))]
pub fn cc_status_shown()
    ensures { CcStatusShown }
{}
