// The lines of answers.
ghost use Rattle.std.specs.Prelude.{◌≡◌, IfOk, Err, string_bytes};
ghost use Rattle.std.specs.Cow.{cow_str_bytes};
ghost use Rattle.ws_form.specs.FaultText.{fault_text};
ghost use Rattle.ws_front.specs.Answers.{desk_response, fault_response, full_text, kind_text};
ghost use Rattle.ws_drive.specs.World.{answer_line, revoke_line};

use std::alloc::Global;
use std::borrow::CowStr;
use ws_form::AskFault;
use ws_model::{Kind, NoMemory};
use ws_port::{DeskFault, Told};

pub const NO_MEMORY: &str = "answer 507 no memory\n";

// The word for what is full.
fn kind_word(kind: Kind) -> &'static str
    ensures { result.now ≡ kind_text kind }
{
    match kind {
        Kind::Pending => "pending",
        Kind::Leases => "leases",
        Kind::Numbers => "numbers",
        Kind::Journal => "journal",
    }
}

// The line of an answer.
fn line(alloc: Global, code: u16, text: &str) -> Result<CowStr<'static>, NoMemory>
    ensures { IfOk result (λ line. cow_str_bytes line ≡ answer_line (record { code = code; text = text.now })) }
{
    Ok(CowStr::Owned(format!(in alloc; "answer {code} {text}\n")?))
}

/// The line of a form's first fault.
pub fn fault_line(alloc: Global, fault: AskFault) -> Result<CowStr<'static>, NoMemory>
    ensures { IfOk result (λ line. cow_str_bytes line ≡ answer_line (fault_response fault)) }
{
    line(alloc, 400, fault.text())
}

// What is full: how many are held, and the limit.
fn full_text(alloc: Global, kind: Kind, held: u64, limit: u64) -> Result<String, NoMemory>
    ensures { IfOk result (λ text. string_bytes text ≡ full_text kind held limit) }
{
    let word = kind_word(kind);
    Ok(format!(in alloc; "full: {word} {held} of {limit}")?)
}

// The line of a fault.
fn desk_fault_line(alloc: Global, fault: DeskFault) -> Result<CowStr<'static>, NoMemory>
    ensures { IfOk result (λ line. cow_str_bytes line ≡ answer_line (desk_response (Err fault))) }
{
    match fault {
        DeskFault::Disk => Ok(CowStr::Borrowed("answer 500 storage fault\n")),
        DeskFault::Full {
            kind,
            held,
            limit,
            ..
        } => {
            let text = full_text(alloc, kind, held, limit)?;
            line(alloc, 503, text.as_str())
        }
        DeskFault::NoMemory => Ok(CowStr::Borrowed(NO_MEMORY)),
    }
}

/// The line of what the hub said of a request.
pub fn answer_line(
    alloc: Global,
    said: Result<Told, DeskFault>,
) -> Result<CowStr<'static>, NoMemory>
    ensures { IfOk result (λ line. cow_str_bytes line ≡ answer_line (desk_response said)) }
{
    match said {
        Ok(_) => Ok(CowStr::Borrowed("answer 202 accepted\n")),
        Err(fault) => desk_fault_line(alloc, fault),
    }
}

/// The line of what the hub said to an operator who revokes.
pub fn revoke_line(
    alloc: Global,
    said: Result<Told, DeskFault>,
) -> Result<CowStr<'static>, NoMemory>
    ensures { IfOk result (λ line. cow_str_bytes line ≡ revoke_line said) }
{
    match said {
        Ok(told) if told.events == 0 => Ok(CowStr::Borrowed("no lease\n")),
        Ok(_) => Ok(CowStr::Borrowed("revoked\n")),
        Err(fault) => desk_fault_line(alloc, fault),
    }
}
