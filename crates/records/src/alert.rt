ghost use Rattle.std.specs.Prelude.{◌≡◌, List, [], ◌∷◌};
ghost use Rattle.records.specs.Faults.{alert_number, listed};
ghost use Rattle.records.specs.Alerts.{alert_octets, read_alert, content_fault, effect_number, judged, received_alert};

use crate::fault::{Alert, AlertLevel, Fault, Layer};

/// An alert as it is sent: how grave it is, and what it says.
#[derive(Clone, Copy)]
pub struct AlertMessage {
    pub level: AlertLevel,
    pub alert: Alert,
}

impl AlertMessage {
    /// The alert that an end writes when it raises one.
    pub fn fatal(alert: Alert) -> AlertMessage
        ensures { alert_octets result ≡ 2 ∷ (alert_number alert ∷ []) }
    {
        AlertMessage {
            level: AlertLevel::Fatal,
            alert,
        }
    }

    /// The alert that an end writes when it closes.
    pub fn close_notify() -> AlertMessage
        ensures { alert_octets result ≡ 1 ∷ (0 ∷ []) }
    {
        AlertMessage {
            level: AlertLevel::Warning,
            alert: Alert::CloseNotify,
        }
    }

    /// The content of the alert's record.
    pub fn to_octets(self) -> [u8; 2]
        ensures { result ≡ alert_octets self }
    {
        [self.level.number(), self.alert.number()]
    }

    /// The alert in the content of a record.
    pub fn read(content: &[u8]) -> Result<AlertMessage, Fault>
        ensures { result ≡ read_alert content.now }
    {
        let [level, number] = content else {
            return Err(fault(Alert::DecodeError));
        };
        match (AlertLevel::from_number(*level), Alert::from_number(*number)) {
            (Some(level), Some(alert)) => Ok(AlertMessage { level, alert }),
            _ => Err(fault(Alert::IllegalParameter)),
        }
    }
}

/// What an alert does to the end that receives it.
#[derive(Clone, Copy)]
pub enum AlertEffect {
    /// Nothing.
    PassBy,
    /// The end closes and writes its own close_notify.
    Close,
    /// The end dies and writes nothing.
    Die,
}

impl AlertEffect {
    /// The number of the stage that the end goes to, and 0 where it stays as it is.
    pub fn number(self) -> u8
        ensures { result ≡ effect_number self }
    {
        match self {
            AlertEffect::PassBy => 0,
            AlertEffect::Close => 12,
            AlertEffect::Die => 13,
        }
    }
}

/// What an alert of this level and number does.
pub fn judge_alert(level: u8, number: u8) -> Result<AlertEffect, Fault>
    ensures { result ≡ judged level number }
{
    match (level, number) {
        (_, n) if !is_listed(n) => Err(fault(Alert::IllegalParameter)),
        (1, 90 | 100) => Ok(AlertEffect::PassBy),
        (1, _) => Ok(AlertEffect::Close),
        (2, _) => Ok(AlertEffect::Die),
        (0 | 3..=255, _) => Err(fault(Alert::IllegalParameter)),
    }
}

/// What the content of an alert record does.
pub fn receive_alert(content: &[u8]) -> Result<AlertEffect, Fault>
    ensures { result ≡ received_alert content.now }
{
    let [level, number] = content else {
        return Err(fault(Alert::DecodeError));
    };
    judge_alert(*level, *number)
}

/// Whether a number is an alert's.
fn is_listed(number: u8) -> bool
    ensures { result ≡ listed number }
{
    Alert::from_number(number).is_some()
}

/// A fault that the content of a record shows.
fn fault(alert: Alert) -> Fault
    ensures { result ≡ content_fault alert }
{
    Fault {
        alert,
        layer: Layer::Content,
    }
}
