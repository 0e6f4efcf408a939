//! What the values of a message may be.
ghost use Rattle.std.specs.Prelude.{◌≡◌};
ghost use Rattle.rules.specs.Subrates.{is_subrating, are_subrates, is_change, is_allowed};

use rules::{
    LARGEST_HCI_HANDLE, LARGEST_PRODUCT, LARGEST_TIMEOUT, LEAST_FACTOR, LEAST_TIMEOUT, Message,
    SubrateChange, Subrates,
};

// The rule over a top factor, a latency, a continuation number and a timeout.
// What it tests implies every other end.
fn is_subrating(factor: u16, latency: u16, continuation: u16, timeout: u16) -> bool
    ensures { result ≡ is_subrating factor latency continuation timeout }
{
    (LEAST_TIMEOUT..=LARGEST_TIMEOUT).contains(&timeout)
        && continuation < factor
        && u32::from(factor) * (u32::from(latency) + 1) <= LARGEST_PRODUCT
}

fn are_subrates(v: Subrates) -> bool
    ensures { result ≡ are_subrates v }
{
    (LEAST_FACTOR..=v.max).contains(&v.min)
        && is_subrating(v.max, v.latency, v.continuation, v.timeout)
}

fn is_change(e: SubrateChange) -> bool
    ensures { result ≡ is_change e }
{
    e.status != 0
        || e.handle <= LARGEST_HCI_HANDLE
            && is_subrating(e.factor, e.latency, e.continuation, e.timeout)
}

pub fn is_allowed(message: Message) -> bool
    ensures { result ≡ is_allowed message }
{
    match message {
        Message::Default(v) => are_subrates(v),
        Message::Request(handle, v) => handle <= LARGEST_HCI_HANDLE && are_subrates(v),
        Message::Change(e) => is_change(e),
    }
}
