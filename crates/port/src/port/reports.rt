//! A report from the connector: judged by the register file, then acted on at the switches.
//! Wants the switches of the front end alone, never its line.
ghost use Rattle.std.specs.Prelude.{◌≡◌, None};
ghost use Rattle.port.specs.Outcomes.{taken_with, UnalteredIfRefused};
ghost use Rattle.port.specs.Reports.{report_refusal, after_report, report_outcome};
ghost use Rattle.port.specs.Steps.{unsettled, tripped};
ghost use Rattle.port.specs.View.{view};

use crate::answer::{Answer, Report};
use crate::port::Port;
use front_end::{FrontEnd, Path, Vconn};
use registers::Trip;
use transfer::Refusal;

impl<F: FrontEnd> Port<F> {
    fn turn_off(&mut self, trip: Trip)
        ensures { view F.meaning self.new ≡ tripped trip (view F.meaning self.old) }
    {
        match trip {
            Trip::Vconn => self.front.set_vconn(Vconn::Off),
            Trip::Vbus => self.front.set_path(Path::Off),
        }
    }

    /// Takes a report, or refuses it and leaves all as it was.
    fn take_report(&mut self, report: Report) -> Result<Answer, Refusal>
        ensures { record { view = view F.meaning self.new; answer = result } ≡ unsettled (report_refusal (view F.meaning self.old) report) (after_report (view F.meaning self.old) report) (taken_with None) (view F.meaning self.old) }
    {
        match report {
            Report::CcLevels { cc1, cc2 } => self.registers.report_levels(cc1, cc2)?,
            Report::Vbus(number) => self.registers.report_vbus(number)?,
            Report::Fault(number) => {
                let trip = self.registers.report_fault(number)?;
                self.turn_off(trip);
            }
        }
        Ok(Answer::taken(None))
    }

    /// What happened at the connector, as raw numbers.
    #[tactic(auto, using(crate::proofs::Cases::unsettled_cases, crate::proofs::Cases::report_refusal_cases, crate::proofs::Settling::left), unfolding(crate::specs::Reports::report_outcome))]
    pub fn report(&mut self, report: Report) -> Result<Answer, Refusal>
        ensures outcome { record { view = view F.meaning self.new; answer = result } ≡ report_outcome (view F.meaning self.old) report }
        ensures refused_alters_nothing { UnalteredIfRefused result (view F.meaning self.old) (view F.meaning self.new) }
    {
        let before = self.begin();
        let outcome = self.take_report(report);
        self.conclude(&before, outcome)
    }
}
