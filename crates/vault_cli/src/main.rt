//! The program `vault`: tokens in place of card numbers.
#![tactic(auto)]

use sqlite::Unknown;
use std::process::ExitCode;
use std::{env, io};
use vault_app::desk::HostDesk;
use vault_app::run::{no_words, run};
use vault_file::host::HostPaths;
use vault_listen::limits::Limits;
use vault_listen::network::Loopback;
use vault_listen::time::ClockTime;
use vault_wire::watched::Watched;

/// The words that the program was started with.
fn words(rt: &HostRuntime) -> io::Result<Vec<String>> {
    Ok(env::args(rt)?.collect(rt.alloc())?)
}

fn main(rt: HostRuntime) -> ExitCode {
    let mut input = Watched::new(rt.stdin());
    let mut output = Watched::new(rt.stdout());
    let mut errors = Watched::new(rt.stderr());
    let status = match words(&rt) {
        Ok(words) => {
            let time = ClockTime::new(&rt);
            let mut network = Loopback::new(&rt, Limits::of_service());
            let desk = HostDesk::new(&rt);
            run(
                &rt,
                HostPaths::new(Unknown),
                &time,
                &mut network,
                &desk,
                words.as_slice(),
                &mut input,
                &mut output,
                &mut errors,
            )
            .0
        }
        Err(error) => no_words(&error, &mut output, &mut errors),
    };
    ExitCode::from(status)
}
