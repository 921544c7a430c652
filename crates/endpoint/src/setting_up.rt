//! The call set_up, and the stage of an end.
ghost use Rattle.std.specs.Prelude.{◌≡◌};
ghost use Rattle.model.specs.Results.{set_up_yields};
ghost use Rattle.model.specs.EndLaws.{EndLaws};
ghost use Rattle.model.specs.Steps.{step};
ghost use Rattle.model.specs.Tlcp.{tlcp, LawOfLines};
ghost use Rattle.end_writer.specs.Kind.{kind_of};
ghost use Rattle.endpoint.specs.View.{view};
ghost use Rattle.endpoint.specs.SetUps.{made_by, Has};

use crate::SetUpRefused;
use crate::end::Endpoint;
use end_rules::set_up_refusal;
use end_state::{LineEnd, State};
use model::Stage;
use octets::Role;
use protection::RecordProtection;

impl<P: RecordProtection> Endpoint<P> {
    /// A new end with the suites that it offers or allows; refused, the protection is given back.
    pub fn set_up(role: Role, protection: P, suites: &[u16]) -> Result<Endpoint<P>, SetUpRefused<P>>
        ensures yields { made_by P.RecordProtection.holds result ≡ set_up_yields tlcp P.RecordProtection.serves role (P.RecordProtection.holds protection) suites.now }
        ensures protection { Has protection result }
        ensures line { LawOfLines (kind_of P.RecordProtection.serves P.RecordProtection.size P.RecordProtection.sealing P.RecordProtection.opening) }
        ensures laws { EndLaws tlcp (kind_of P.RecordProtection.serves P.RecordProtection.size P.RecordProtection.sealing P.RecordProtection.opening) (step tlcp (kind_of P.RecordProtection.serves P.RecordProtection.size P.RecordProtection.sealing P.RecordProtection.opening)) }
    {
        match set_up_refusal::<P>(suites) {
            Some(refusal) => Err(SetUpRefused {
                refusal,
                protection,
            }),
            None => {
                let state = State::new(role, suites);
                Ok(Endpoint {
                    end: LineEnd { protection, state },
                })
            }
        }
    }

    /// The stage of the end.
    pub fn stage(&self) -> Stage
        ensures { result ≡ (view P.RecordProtection.holds self.now).stage }
    {
        self.end.state.stage
    }
}
