//! Each message at the stage that awaits it.
ghost use Rattle.std.specs.Prelude.{◌≡◌, ℕ, List, length, Option};
ghost use Rattle.sm3.specs.Hash.{Running};
ghost use Rattle.protection.specs.Keys.{Keying};
ghost use Rattle.model.specs.declared.stage.Stage.TheVariants.{AwaitServerHello, AwaitCertificate, AwaitServerKeyExchange, AwaitServerHelloDone, ClientAwaitFinished, AwaitClientHello, AwaitClientKeyExchange, ServerAwaitFinished};
ghost use Rattle.model.specs.Endpoint.{End};
ghost use Rattle.model.specs.Turns.{on_message};
ghost use Rattle.model.specs.Tlcp.{tlcp};
ghost use Rattle.end_state.specs.View.{state_view};
ghost use Rattle.end_turning.specs.Turns.{judged_deed, plain};

use crate::judging::TurnEffect;
use end_rules::{
    judge_certificates, judge_client_hello, judge_client_key_exchange, judge_done, judge_finished,
    judge_server_hello, judge_server_key_exchange,
};
use end_state::State;
use octets::Role;
use records::Fault;

/// The server takes a ClientHello against the suites that it allows.
pub(crate) fn turn_client_hello(state: &State, body: &[u8]) -> Result<TurnEffect, Fault>
    ensures { (held : Option Keying) (m xs : List ℕ) → judged_deed m xs result ≡ plain (on_message tlcp AwaitClientHello (state_view held state.now) m body.now xs) }
{
    let hello = judge_client_hello(body, state.suites.as_slice())?;
    Ok(TurnEffect::TakeClientHello(hello))
}

/// The client takes a ServerHello against the suites that it offered.
pub(crate) fn turn_server_hello(state: &State, body: &[u8]) -> Result<TurnEffect, Fault>
    ensures { (held : Option Keying) (m xs : List ℕ) → judged_deed m xs result ≡ plain (on_message tlcp AwaitServerHello (state_view held state.now) m body.now xs) }
{
    let hello = judge_server_hello(body, state.suites.as_slice())?;
    Ok(TurnEffect::TakeServerHello(hello))
}

/// The client keeps a Certificate until it is trusted.
pub(crate) fn turn_certificate(body: &[u8]) -> Result<TurnEffect, Fault>
    ensures { (e : End Running) (m xs : List ℕ) → judged_deed m xs result ≡ plain (on_message tlcp AwaitCertificate e m body.now xs) }
{
    judge_certificates(body)?;
    Ok(TurnEffect::KeepCertificates)
}

/// The client keeps a ServerKeyExchange until its signature is trusted.
pub(crate) fn turn_signature(body: &[u8]) -> Result<TurnEffect, Fault>
    ensures { (e : End Running) (m xs : List ℕ) → judged_deed m xs result ≡ plain (on_message tlcp AwaitServerKeyExchange e m body.now xs) }
{
    judge_server_key_exchange(body)?;
    Ok(TurnEffect::KeepSignature)
}

/// The client takes a ServerHelloDone.
pub(crate) fn turn_done(body: &[u8]) -> Result<TurnEffect, Fault>
    ensures { (e : End Running) (m xs : List ℕ) → judged_deed m xs result ≡ plain (on_message tlcp AwaitServerHelloDone e m body.now xs) }
{
    judge_done(body)?;
    Ok(TurnEffect::TakeDone)
}

/// The server keeps a ClientKeyExchange until its premaster is unwrapped.
pub(crate) fn turn_wrapped(body: &[u8]) -> Result<TurnEffect, Fault>
    ensures { (e : End Running) (m xs : List ℕ) → judged_deed m xs result ≡ plain (on_message tlcp AwaitClientKeyExchange e m body.now xs) }
{
    judge_client_key_exchange(body)?;
    Ok(TurnEffect::KeepWrapped)
}

/// The client opens with the server's Finished, behind which nothing is buffered.
pub(crate) fn finish_client(state: &State, body: &[u8], rest: usize) -> Result<TurnEffect, Fault>
    ensures { (held : Option Keying) (m xs : List ℕ) → length xs ≡ rest → judged_deed m xs result ≡ plain (on_message tlcp ClientAwaitFinished (state_view held state.now) m body.now xs) }
{
    let server_value = state.verify_data(Role::Server);
    judge_finished(body, rest, &server_value)?;
    Ok(TurnEffect::ClientOpens)
}

/// The server opens with the client's Finished, behind which nothing is buffered.
pub(crate) fn finish_server(state: &State, body: &[u8], rest: usize) -> Result<TurnEffect, Fault>
    ensures { (held : Option Keying) (m xs : List ℕ) → length xs ≡ rest → judged_deed m xs result ≡ plain (on_message tlcp ServerAwaitFinished (state_view held state.now) m body.now xs) }
{
    let client_value = state.verify_data(Role::Client);
    judge_finished(body, rest, &client_value)?;
    Ok(TurnEffect::ServerOpens)
}
