//! Signs files, each as one body: `bench_hmac METHOD SECRET FILE..` prints a line for each, its signature.
//!
//! `bench/signatures.sh` measures it against `openssl dgst -hmac`.
#![tactic(auto)]

ghost use Rattle.std.specs.Prelude.{◌≡◌, ◌≢◌, IfNone, IfSome};
ghost use Rattle.ws_hmac.specs.Sign.{method_of};
ghost use Rattle.ws_model.specs.declared.event.Alg.{Alg};

use anyhow::{Context, Result};
use std::{env, fs};
use ws_hmac::signature;
use ws_model::Alg;

fn main(rt: HostRuntime) -> Result<()> {
    let mut words = env::args(&rt)?;
    let _program = words.next();
    let method = words.next().context("a method is missing")?;
    let alg = method_named(method.as_str()).context(format_args!("no method {method}"))?;
    let secret = words.next().context("a secret is missing")?;
    for path in words {
        let body = fs::read(&rt, path.as_str()).context(format_args!("reading {path}"))?;
        let text = signature(rt.alloc(), alg, secret.as_bytes(), &body)?;
        let text = String::from_utf8(text.into_vec())?;
        println!(rt; "{text}")?;
    }
    Ok(())
}

// The method of this name.
fn method_named(name: &str) -> Option<Alg>
    ensures found { IfSome result (λ alg. method_of alg ≡ name.now) }
    ensures none { IfNone result ((alg : Alg) → method_of alg ≢ name.now) }
{
    match name {
        "sha1" => Some(Alg::Sha1),
        "sha256" => Some(Alg::Sha256),
        "sha384" => Some(Alg::Sha384),
        "sha512" => Some(Alg::Sha512),
        _ => None,
    }
}
