// Leases.
ghost use Rattle.std.specs.Prelude.{◌≡◌, ◌≤◌, ◌==◌, IfOk};
ghost use Rattle.std.specs.List.{list_all};
ghost use Rattle.ws_form.specs.Answers.{Gives};
ghost use Rattle.ws_form.specs.Form.{granted_for, lease_in};

use crate::AskFault;
use crate::fields::field;
use std::alloc::Global;
use ws_model::{are_digits, number_within};

const LONGEST_LEASE: u32 = 864_000;

const SHORTEST_LEASE: u32 = 60;

fn is_zeros(text: &[u8]) -> bool
    ensures { result ≡ list_all (λ digit. digit == 48) text.now }
{
    text.iter().all(|digit| *digit == b'0')
}

// The number of the digits, brought into the bounds.
#[tactic(auto, unfolding(crate::specs::Form::granted_for))]
fn granted_for(digits: &[u8]) -> u32
    ensures value { result ≡ granted_for digits.now }
    ensures least { 60 ≤ result }
    ensures most { result ≤ 864000 }
{
    let seconds = number_within(digits, u64::from(LONGEST_LEASE)) as u32;
    seconds.max(SHORTEST_LEASE)
}

/// The lease that a form is granted, in seconds, or `LeaseBad`.
#[tactic(auto, unfolding(crate::specs::Form::lease_in))]
pub fn lease(alloc: Global, body: &[u8]) -> Result<u32, AskFault>
    ensures value { Gives (lease_in body.now) result }
    ensures least { IfOk result (λ granted. 60 ≤ granted) }
    ensures most { IfOk result (λ granted. granted ≤ 864000) }
{
    let Some(text) = field(alloc, body, "hub.lease_seconds")? else {
        return Ok(LONGEST_LEASE);
    };
    let text = text.as_slice();
    if text.is_empty() {
        return Ok(LONGEST_LEASE);
    }
    if !are_digits(text) || is_zeros(text) {
        return Err(AskFault::LeaseBad);
    }
    Ok(granted_for(text))
}
