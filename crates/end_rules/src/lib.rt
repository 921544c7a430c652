//! The decisions of a line end that need no state: why a call is refused, whether an answer fits, what the content
//! of a record does, and what the body of a handshake message does.
#![tactic(auto)]

mod answer;
mod bounds;
mod content;
mod message;
mod refusals;
mod suites;

pub use answer::{Answer, AnswerParts, is_versioned, lengths_fit, takes_answer};
pub use bounds::{
    PLACE_SPACE, READ_LIMIT, REPLY_SPACE, SEND_LIMIT, SEND_SPACE, SUITE_LIMIT, number_limits,
    spaces,
};
pub use content::{ContentEffect, judge_content};
pub use message::{
    Hello, judge_certificates, judge_client_hello, judge_client_key_exchange, judge_done,
    judge_finished, judge_server_hello, judge_server_key_exchange,
};
pub use refusals::{
    answer_refusal, close_refusal, hand_in_refusal, look_refusal, send_refusal, turn_refusal,
};
pub use suites::set_up_refusal;
