// Final answers.
ghost use Rattle.std.specs.Prelude.{◌≡◌, IfOk, true};
ghost use Rattle.ws_http.specs.Texts.{is_answer_code};
ghost use Rattle.ws_front.specs.Answers.{IsAnswer, refusal_response};

use crate::refusal::Refusal;
use std::alloc::Global;
use ws_http::write_response;
use ws_model::{Bytes, NoMemory};

/// A final answer: its status code, and all its bytes.
#[derive(Debug, Drop)]
pub struct Answer {
    pub code: u16,
    pub bytes: Bytes,
}

impl Answer {
    /// The answer with this code and this text.
    pub fn made(alloc: Global, code: u16, text: &[u8]) -> Result<Answer, NoMemory>
        requires { is_answer_code code ≡ true }
        ensures { IfOk result (λ a. IsAnswer (record { code = code; text = text.now }) a.code a.bytes) }
    {
        let bytes = write_response(alloc, code, code == 405, text)?;
        Ok(Answer { code, bytes })
    }

    /// The answer to a request that is refused.
    pub fn of_refusal(alloc: Global, refusal: Refusal) -> Result<Answer, NoMemory>
        ensures { IfOk result (λ a. IsAnswer (refusal_response refusal) a.code a.bytes) }
    {
        Answer::made(alloc, refusal.code(), refusal.text())
    }
}
