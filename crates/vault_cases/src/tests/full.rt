//! A merchant that has as many tokens as it may have, which no trial waits for.
use vault_core::decide::decide;
use vault_core::reply::Reply;
use vault_core::row::MerchantRow;
use vault_core::window::Window;
use vault_pan::lead::Lead;
use vault_script::command::{asked, moment};

/// What a new request finds, without a candidate, at a merchant with so many tokens.
fn window(made: u64) -> Option<Window> {
    let mut window = Window::empty();
    window.merchants = 1;
    window.right = true;
    window.merchant = Some(MerchantRow {
        single_life: 60,
        multi_life: 0,
        lead: Lead::Six,
        moment: moment("1000", 0)?,
        made,
        given: 0,
        denied: 0,
    });
    Some(window)
}

/// Whether a new request at a merchant with so many tokens is refused by this number, and changes nothing.
fn is_refused(made: u64, number: u8) -> bool {
    let line = "tokenize till-1 shop1 7 single 4111111111111111 0 1000";
    let (Some(window), Some(command)) = (window(made), asked(line)) else {
        return false;
    };
    if !command.proper() {
        return false;
    }
    let (reply, changes) = decide(&window, &command);
    reply == Reply::Refused(number) && changes.is_none()
}

#[test]
fn a_full_merchant_refuses_before_the_draw_does(rt: HostRuntime) {
    assert!(rt; is_refused(999_999, 12) && is_refused(1_000_000, 11));
}
