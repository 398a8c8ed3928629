//! A vault in memory that gives more tokens than one job may ask for.
use super::clocks::TestClock;
use rand::SeedableRng;
use rand::rngs::StdRng;
use std::alloc::{AllocError, Global};
use vault_core::moment::Moment;
use vault_core::name::{Caller, MerchantId};
use vault_jobs::pipe::pipe;
use vault_jobs::trial::{Trial, trial_vault};
use vault_listen::live::LiveSource;
use vault_listen::time::{ClockTime, Timekeeper};
use vault_script::fakes::{TestReader, TestWriter};
use vault_wire::watched::Watched;

/// The messages that ask for so many tokens of one number, each with a request number of its own; and then
/// for the counts.
fn requests(alloc: Global, count: u64) -> Result<String, AllocError> {
    let body = "{\"number\":\"4111111111111111\",\"use\":\"single\"}";
    let size = body.len();
    let mut text = String::new(alloc);
    for request in 1..=count {
        let message = format!(in alloc;
            "POST /v1/merchants/shop1/tokens HTTP/1.1\r\nX-Vault-Caller: till-1\r\n\
             X-Vault-Request: {request}\r\nContent-Length: {size}\r\n\r\n{body}"
        )?;
        text.push_str(message.as_str())?;
    }
    text.push_str("GET /v1/merchants/shop1/audit HTTP/1.1\r\nX-Vault-Caller: till-1\r\n\r\n")?;
    Ok(text)
}

/// What a trial's pipe answers to 1001 requests and an audit, where it is done.
fn answers(rt: &HostRuntime) -> Option<Vec<u8>> {
    let alloc = rt.alloc();
    let made = Moment::new(1000).ok()?;
    let asked = Trial {
        caller: Caller::read(b"till-1").ok()?,
        merchant: MerchantId::read(b"shop1").ok()?,
        life: 60,
        made,
        moment: None,
        digits: None,
    };
    let mut vault = trial_vault(alloc, &asked).ok()?;
    let generator = StdRng::seed_from_u64(7);
    let clock = TestClock::at(1000);
    let time = ClockTime::new(&clock);
    let mut pairs = LiveSource::fixed(alloc, time.questions(), generator, 1002, Some(made), None);
    let input = requests(alloc, 1001).ok()?;
    let mut output = Vec::new(alloc);
    let mut reader = Watched::new(TestReader::Bytes(input.as_bytes()));
    let mut writer = Watched::new(TestWriter::Whole(&mut output));
    pipe(alloc, &mut reader, &mut writer, &mut vault, &mut pairs).ok()?;
    Some(output)
}

/// Whether the audit says 1001 tokens.
fn has_made_1001(rt: &HostRuntime) -> bool {
    match answers(rt) {
        Some(output) => output.ends_with(b"{\"denied\":0,\"given\":0,\"made\":1001}"),
        None => false,
    }
}

#[test]
fn a_merchant_gets_1001_tokens_over_maps(rt: HostRuntime) {
    assert!(rt; has_made_1001(&rt));
}
