//! What the first message of the buffer leads to when it is turned.
ghost use Rattle.std.specs.Prelude.{◌≡◌, ℕ, List, length, Option};
ghost use Rattle.protection.specs.Keys.{Keying};
ghost use Rattle.handshake.specs.Frames.{next, ready};
ghost use Rattle.model.specs.Turns.{turned};
ghost use Rattle.model.specs.Tlcp.{tlcp};
ghost use Rattle.end_state.specs.View.{state_view, buffer_view};
ghost use Rattle.end_turning.specs.Turns.{judged_deed, first_deed, Within, plain};

use crate::awaited::{
    finish_client, finish_server, turn_certificate, turn_client_hello, turn_done,
    turn_server_hello, turn_signature, turn_wrapped,
};
use end_rules::Hello;
use end_state::State;
use handshake::{HEADER_LENGTH, HandshakeType};
use handshake_reader::{FirstMessage, first_message};
use model::Stage;
use records::{Alert, Fault, Layer};

/// What a message does to the end that turns it.
#[derive(Clone, Copy)]
pub(crate) enum TurnEffect {
    /// No message is there.
    Nothing,
    /// The server takes the client's hello.
    TakeClientHello(Hello),
    /// The client takes the server's hello.
    TakeServerHello(Hello),
    /// The server's flight is over.
    TakeDone,
    /// The message stays in the buffer while the client asks about its certificates.
    KeepCertificates,
    /// The message stays in the buffer while the client asks about its signature.
    KeepSignature,
    /// The message stays in the buffer while the server asks for the premaster in it.
    KeepWrapped,
    /// The client opens.
    ClientOpens,
    /// The server opens with its own Finished.
    ServerOpens,
}

/// What the first message of the buffer does, and its length with the header.
#[derive(Clone, Copy)]
pub(crate) struct Turn {
    pub(crate) effect: TurnEffect,
    pub(crate) size: usize,
}

/// Alert 47: a message longer than an end takes.
const TOO_LONG: Fault = Fault {
    alert: Alert::IllegalParameter,
    layer: Layer::Message,
};

/// Alert 10: a message that the stage does not await.
const UNAWAITED: Fault = Fault {
    alert: Alert::UnexpectedMessage,
    layer: Layer::Stage,
};

/// What the first message of the buffer does: too long, or by its type and the stage.
pub(crate) fn judge_first(state: &State) -> Result<Turn, Fault>
    ensures deed { (held : Option Keying) → first_deed (buffer_view state.now.buffer) result ≡ plain (turned tlcp (state_view held state.now) (next (buffer_view state.now.buffer))) }
    ensures within { Within state.now.buffer.len result }
{
    let buffered = state.buffer.as_slice();
    match first_message(buffered) {
        FirstMessage::NotReady => Ok(Turn {
            effect: TurnEffect::Nothing,
            size: 0,
        }),
        FirstMessage::TooLong => Err(TOO_LONG),
        FirstMessage::Ready { kind, length } => {
            let size = HEADER_LENGTH + length;
            let body = &buffered[HEADER_LENGTH..size];
            let effect = judge_message(state, kind, body, buffered.len() - size)?;
            Ok(Turn { effect, size })
        }
    }
}

/// What a message of a type does, with its body and so many octets behind it in the buffer.
fn judge_message(state: &State, number: u8, body: &[u8], rest: usize) -> Result<TurnEffect, Fault>
    ensures { (held : Option Keying) (m xs : List ℕ) → length xs ≡ rest → judged_deed m xs result ≡ plain (turned tlcp (state_view held state.now) (ready number m body.now xs)) }
{
    let Some(kind) = HandshakeType::from_number(number) else {
        return Err(UNAWAITED);
    };
    match (state.stage, kind) {
        (Stage::AwaitClientHello, HandshakeType::ClientHello) => turn_client_hello(state, body),
        (Stage::AwaitServerHello, HandshakeType::ServerHello) => turn_server_hello(state, body),
        (Stage::AwaitCertificate, HandshakeType::Certificate) => turn_certificate(body),
        (Stage::AwaitServerKeyExchange, HandshakeType::ServerKeyExchange) => turn_signature(body),
        (Stage::AwaitServerHelloDone, HandshakeType::ServerHelloDone) => turn_done(body),
        (Stage::AwaitClientKeyExchange, HandshakeType::ClientKeyExchange) => turn_wrapped(body),
        (Stage::ClientAwaitFinished, HandshakeType::Finished) => finish_client(state, body, rest),
        (Stage::ServerAwaitFinished, HandshakeType::Finished) => finish_server(state, body, rest),
        (
            Stage::AskClientRandom
            | Stage::AwaitServerHello
            | Stage::AwaitCertificate
            | Stage::AskCertificates
            | Stage::AwaitServerKeyExchange
            | Stage::AskSignature
            | Stage::AwaitServerHelloDone
            | Stage::AskWrapping
            | Stage::ClientAwaitChange
            | Stage::ClientAwaitFinished
            | Stage::AwaitClientHello
            | Stage::AskServerFlight
            | Stage::AwaitClientKeyExchange
            | Stage::AskUnwrapping
            | Stage::ServerAwaitChange
            | Stage::ServerAwaitFinished
            | Stage::Open
            | Stage::Closed
            | Stage::Dead,
            _,
        ) => Err(UNAWAITED),
    }
}
