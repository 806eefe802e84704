// The account as text.
ghost use Rattle.std.specs.Prelude.{◌≡◌, ◌++◌, IfOk, OnOk, string_bytes};
ghost use Rattle.ws_drive.specs.AccountText.{account_text, count_line};

use std::alloc::{AllocError, Global};
use ws_model::{Account, NoMemory};

// Adds a line of a name and a number.
fn add_line(text: &mut String, name: &str, n: u64) -> Result<(), AllocError>
    ensures { OnOk result (string_bytes text.new ≡ string_bytes text.old ++ count_line name.now n) }
{
    writeln!(text, "{name} {n}")
}

/// The thirteen lines of an account, each a name, a space and a number.
pub fn account_text(alloc: Global, account: &Account) -> Result<String, NoMemory>
    ensures { IfOk result (λ text. string_bytes text ≡ account_text account.now) }
{
    let mut text = String::new(alloc);
    add_line(&mut text, "pending", account.pending)?;
    add_line(&mut text, "notices", account.notices)?;
    add_line(&mut text, "leases", account.leases)?;
    add_line(&mut text, "topics", account.topics)?;
    add_line(&mut text, "fetches", account.fetches)?;
    add_line(&mut text, "owed", account.owed)?;
    add_line(&mut text, "answered", account.answered)?;
    add_line(&mut text, "expired", account.expired)?;
    add_line(&mut text, "unsubscribed", account.unsubscribed)?;
    add_line(&mut text, "replaced", account.replaced)?;
    add_line(&mut text, "gone", account.gone)?;
    add_line(&mut text, "spent", account.spent)?;
    add_line(&mut text, "revoked", account.revoked)?;
    Ok(text)
}
