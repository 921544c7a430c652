use records::{Alert, Fault, Layer};

/// Alert 70: a hello of another version.
pub const VERSION_FAULT: Fault = Fault {
    alert: Alert::ProtocolVersion,
    layer: Layer::Message,
};

/// Alert 50: any other breach of layout.
pub const LAYOUT_FAULT: Fault = Fault {
    alert: Alert::DecodeError,
    layer: Layer::Message,
};

/// Alert 47: a length over the limit.
pub const LENGTH_FAULT: Fault = Fault {
    alert: Alert::IllegalParameter,
    layer: Layer::Message,
};

/// Alert 10: another type than is awaited.
pub const TYPE_FAULT: Fault = Fault {
    alert: Alert::UnexpectedMessage,
    layer: Layer::Stage,
};
